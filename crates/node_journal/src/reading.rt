use crate::Journal;
use helios_model::Bytes;
use std::marker::Model;

/// A journal that is being read, at the gate of its next frame.
#[derive(Drop)]
pub struct Reading {
    pub(crate) gate: u64,
    pub(crate) limit: u64,
}

impl Model for Reading {
    ghost use Rattle.node_journal.specs.Positions.{Position};

    ghost Value = { Position };

    ghost view = { λ r. record { gate = r.gate; limit = r.limit } };
}

/// What stands at the gate of a reading.
#[derive(Drop)]
pub enum Found {
    /// A payload, and the place of its gate.
    Frame {
        reading: Reading,
        at: u64,
        payload: Bytes,
    },
    /// No payload more: the gate is not open.
    Last(Journal),
}
