//! Sites, times, the ids of transactions and the versions of keys.
ghost use Rattle.std.specs.Prelude.{◌≡◌, ℕ, ◌<◌, ◌↔◌, IsSome, IfSome, List, IfOk};
ghost use Rattle.helios_model.specs.Limits.{most_sites};
ghost use Rattle.helios_model.specs.declared.ids.TxnId.{TxnId};

use crate::limits::MOST_SITES;
use std::alloc::AllocError;
use std::marker::Model;

/// A site of the cluster, by its number: below 32.
#[derive(Clone, Copy, Debug, PartialEq, Eq, PartialOrd, Ord)]
pub struct SiteId {
    number: u8,
}

impl Model for SiteId {
    ghost use Rattle.std.specs.Prelude.{ℕ, ◌<◌};
    ghost use Rattle.helios_model.specs.Limits.{most_sites};

    ghost Value = { ℕ };

    ghost view = { λ s. s.number };

    ghost invariant = { λ s. s.number < most_sites };

    ghost inverse = { λ n. record { number = n } };
}

impl SiteId {
    /// The site with this number; None where no cluster has so many sites.
    pub fn new(number: u8) -> Option<SiteId>
        ensures valid { IsSome result ↔ (number < most_sites) }
        ensures value { IfSome result (λ s. s ≡ number) }
    {
        if number < MOST_SITES {
            Some(SiteId { number })
        } else {
            None
        }
    }

    /// The site with this number, which the caller knows to be below 32.
    pub fn of(number: u8) -> SiteId
        requires { number < most_sites }
        ensures { result ≡ number }
    {
        SiteId { number }
    }

    pub fn number(self) -> u8
        ensures value { result ≡ self }
        ensures small { result < most_sites }
    {
        self.number
    }
}

/// A time of the protocol, in half microseconds.
#[derive(Clone, Copy, Debug, PartialEq, Eq, PartialOrd, Ord)]
pub struct Time {
    half_micros: u64,
}

impl Model for Time {
    ghost use Rattle.std.specs.Prelude.{ℕ};

    ghost Value = { ℕ };

    ghost view = { λ t. t.half_micros };

    ghost inverse = { λ n. record { half_micros = n } };
}

impl Time {
    pub fn of(half_micros: u64) -> Time
        ensures { result ≡ half_micros }
    {
        Time { half_micros }
    }

    pub fn half_micros(self) -> u64
        ensures { result ≡ self }
    {
        self.half_micros
    }
}

/// The name of a transaction: the site that took it, and the time that the site gave it.
#[derive(Clone, Copy, Debug, PartialEq, Eq, PartialOrd, Ord)]
pub struct TxnId {
    pub site: SiteId,
    pub time: Time,
}

/// The version of a key: the transaction that wrote it, or none yet.
#[derive(Clone, Copy, Debug, PartialEq, Eq, PartialOrd, Ord)]
pub enum Version {
    Initial,
    Of(TxnId),
}

/// Names of transactions.
#[derive(Clone, Debug, Drop)]
pub struct TxnIds {
    items: Vec<TxnId>,
}

impl Model for TxnIds {
    ghost Value = { List TxnId };

    ghost view = { λ l. l.items.items };
}

impl TxnIds {
    pub fn new(items: Vec<TxnId>) -> TxnIds
        ensures { result ≡ items.items }
    {
        TxnIds { items }
    }

    pub fn items(&self) -> &[TxnId]
        ensures { result.now ≡ self.now }
    {
        self.items.as_slice()
    }

    pub fn into_items(self) -> Vec<TxnId>
        ensures { result.items ≡ self }
    {
        self.items
    }

    pub fn copy(&self) -> Result<TxnIds, AllocError>
        ensures { IfOk result (λ copied. copied ≡ self.now) }
    {
        self.clone()
    }
}
