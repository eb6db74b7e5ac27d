// A gate and the length behind it.
ghost use Rattle.std.specs.Prelude.{◌≡◌, ◌≢◌, ◌<◌, ◌≤◌, ◌+◌, Some, length, take, ◌∷◌, slice_index, option_map, IfSome, IfOk, is_ok, IsErr, OnErr};
ghost use Rattle.std.specs.Option.{ForSome};
ghost use Rattle.outside_io.specs.Causes.{HasCause, IsCount};
ghost use Rattle.disk_store.specs.Disk.{GivesBytes, IsImage};
ghost use Rattle.disk_store.specs.Outlook.{never};
ghost use Rattle.node_journal.specs.Frames.{length_bytes, length_from};
ghost use Rattle.node_journal.specs.Gates.{GateIs};
ghost use Rattle.node_journal.specs.Devices.{SameRoom, StaysQuiet};

use disk_store::Disk;
use outside_io::Failed;

/// What stands at a gate.
#[derive(Clone, Copy)]
pub(crate) enum Gate {
    /// The gate is not open.
    Closed,
    /// The gate is open, and the bytes end before a whole length.
    Cut,
    /// The gate is open, with this length behind it.
    Length(u32),
}

/// Reads a gate and the length behind it.
pub(crate) fn read_gate<D: Disk>(disk: &mut D, gate: u64) -> Result<Gate, Failed>
    requires { ForSome (D.state disk.old) (λ d. gate < length d.bytes) }
    ensures stands { IfOk result (λ found. IfSome (D.state disk.old) (λ d. GateIs d.bytes gate found)) }
    ensures image { IfSome (D.state disk.new) (λ d. IsImage d d.bytes) }
    ensures room { SameRoom (D.outlook disk.old) (D.outlook disk.new) }
    ensures same { D.state disk.new ≡ D.state disk.old }
    ensures same_past { D.past disk.new ≡ D.past disk.old }
    ensures failed { IfSome (D.outlook disk.old) (λ o. IsErr result → o.failing ≢ never) }
    ensures quiet { StaysQuiet (D.outlook disk.old) (D.outlook disk.new) }
    ensures keeps { D.keeps disk.new ≡ D.keeps disk.old }
    ensures count { IsCount (D.faults disk.new) }
    ensures cause { HasCause (D.faults disk.old) (D.faults disk.new) result }
{
    let mut bytes = [0u8; 5];
    let count = disk.read_at(gate, &mut bytes)?;
    let found = gate_of(bytes.split_at(count).0);
    Ok(found)
}

/// The gate that begins these bytes, of which there are at most five.
#[tactic(auto, using(crate::proofs::GateLemmas::gate_length))]
fn gate_of(bytes: &[u8]) -> Gate
    requires { length bytes.now ≤ 5 }
    ensures { GateIs bytes.now 0 result }
{
    if bytes.is_empty() || bytes[0] != 1 {
        return Gate::Closed;
    }
    if bytes.len() < 5 {
        return Gate::Cut;
    }
    Gate::Length(spelled_length([bytes[1], bytes[2], bytes[3], bytes[4]]))
}

/// The number that four bytes spell, the highest first.
#[tactic(auto, unfolding(crate::specs::Frames::length_from))]
fn spelled_length(bytes: [u8; 4]) -> u32
    ensures { result ≡ length_from bytes }
{
    u32::from_be_bytes(bytes)
}
