ghost use Rattle.std.specs.Prelude.{◌≡◌, ◌≢◌, ◌<◌, ◌≤◌, [], ◌∷◌, true, false, length, take, IfOk, IfSome, OnOk, OnErr};
ghost use Rattle.std.specs.Io.{ReadsAtMost};
ghost use Rattle.std.specs.Io.KnownBytes.{ReadConsumes, WriteAppends};
ghost use Rattle.outside_io.specs.Causes.{HasCause, IsCount, StaysTold};
ghost use Rattle.outside_io.specs.Clock.{GaveTold};
ghost use Rattle.outside_io.specs.Net.{AreCounts, IsAddress, Talks, hung_up, is_end, listening, taken, with_call_faults};
ghost use Rattle.outside_io.specs.Seen.{ClockSeen, NetSeen, SourceSeen, SinkSeen};

use crate::Failed;

/// Where bytes come from. It may tell which are still to come, and counts its faults.
pub trait Source {
    ghost seen: { Self → SourceSeen };

    /// Moves bytes into the front of the buffer and says how many. 0 for a buffer with room is the
    /// end of the input. Where it fails, no byte has moved.
    fn read(&mut self, into: &mut [u8]) -> Result<usize, Failed>
        ensures bound { ReadsAtMost result into.new }
        ensures bytes { ReadConsumes (seen self.old).left (seen self.new).left result into.new }
        ensures tells { StaysTold (seen self.old).left (seen self.new).left }
        ensures count { IsCount (seen self.new).faults }
        ensures cause { HasCause (seen self.old).faults (seen self.new).faults result };
}

/// Where bytes go. It may tell all that it has taken, and counts its faults.
pub trait Sink {
    ghost seen: { Self → SinkSeen };

    /// Takes a front of the piece and says how many bytes: at least one where the piece is not
    /// empty. Where it fails, it has taken none.
    fn write(&mut self, from: &[u8]) -> Result<usize, Failed>
        ensures bound { IfOk result (λ n. n ≤ length from.now) }
        ensures progress { IfOk result (λ n. 0 < length from.now → 0 < n) }
        ensures bytes { WriteAppends (seen self.old).taken (seen self.new).taken result from.now }
        ensures tells { StaysTold (seen self.old).taken (seen self.new).taken }
        ensures count { IsCount (seen self.new).faults }
        ensures cause { HasCause (seen self.old).faults (seen self.new).faults result };
}

/// Connections, one at a time. It may tell where it listens, what its peers have to send, and what was said on each
/// connection; it counts the calls of `listen`, `accept` and `dial` that failed, and the reads and writes that failed. Where a
/// call fails, nothing else changes but that `accept` and `dial` have ended the connection that stood.
pub trait Net {
    ghost seen: { Self → NetSeen };

    /// Listens at an address of 1 to 255 bytes.
    fn listen(&mut self, address: &str) -> Result<(), Failed>
        requires { IsAddress address.now }
        ensures listens { OnOk result (seen self.new ≡ listening address.now (seen self.old)) }
        ensures failed { OnErr result (seen self.new ≡ with_call_faults (seen self.new).call_faults (seen self.old)) }
        ensures counts { AreCounts (seen self.new) }
        ensures cause { HasCause (seen self.old).call_faults (seen self.new).call_faults result };

    /// Waits for the next peer and takes its connection. One that stands ends first.
    fn accept(&mut self) -> Result<(), Failed>
        requires { (seen self.old).listens ≡ true }
        ensures takes { OnOk result (seen self.new ≡ taken [] (seen self.old)) }
        ensures came { OnOk result (IfSome (seen self.old).told (λ net. net.waiting ≢ [])) }
        ensures failed { OnErr result (seen self.new ≡ hung_up (with_call_faults (seen self.new).call_faults (seen self.old))) }
        ensures counts { AreCounts (seen self.new) }
        ensures cause { HasCause (seen self.old).call_faults (seen self.new).call_faults result };

    /// Takes a connection to an address of 1 to 255 bytes. One that stands ends first.
    fn dial(&mut self, address: &str) -> Result<(), Failed>
        requires { IsAddress address.now }
        ensures takes { OnOk result (seen self.new ≡ taken address.now (seen self.old)) }
        ensures came { OnOk result (IfSome (seen self.old).told (λ net. net.waiting ≢ [])) }
        ensures failed { OnErr result (seen self.new ≡ hung_up (with_call_faults (seen self.new).call_faults (seen self.old))) }
        ensures counts { AreCounts (seen self.new) }
        ensures cause { HasCause (seen self.old).call_faults (seen self.new).call_faults result };

    /// Moves bytes of the peer into the front of the buffer and says how many. 0 for a buffer with room is the end of what
    /// the peer sends. Where it fails, no byte has moved.
    fn read(&mut self, into: &mut [u8]) -> Result<usize, Failed>
        requires { (seen self.old).stands ≡ true }
        ensures bound { ReadsAtMost result into.new }
        ensures got { IfOk result (λ n. Talks (seen self.old) (seen self.new) [] (take n into.new) (is_end n into.new)) }
        ensures failed { OnErr result (Talks (seen self.old) (seen self.new) [] [] false) }
        ensures counts { AreCounts (seen self.new) }
        ensures cause { HasCause (seen self.old).line_faults (seen self.new).line_faults result };

    /// Sends a front of the piece and says how many bytes: at least one where the piece is not empty. Where it fails, it has
    /// sent none.
    fn write(&mut self, from: &[u8]) -> Result<usize, Failed>
        requires { (seen self.old).stands ≡ true }
        ensures bound { IfOk result (λ n. n ≤ length from.now) }
        ensures progress { IfOk result (λ n. 0 < length from.now → 0 < n) }
        ensures sent { IfOk result (λ n. Talks (seen self.old) (seen self.new) (take n from.now) [] false) }
        ensures failed { OnErr result (Talks (seen self.old) (seen self.new) [] [] false) }
        ensures counts { AreCounts (seen self.new) }
        ensures cause { HasCause (seen self.old).line_faults (seen self.new).line_faults result };

    /// Ends the connection, if one stands.
    fn hang_up(&mut self)
        ensures { seen self.new ≡ hung_up (seen self.old) };
}

/// The time. It may tell its readings to come.
pub trait Clock {
    ghost seen: { Self → ClockSeen };

    /// A reading, in half microseconds.
    fn now(&mut self) -> u64
        ensures { GaveTold (seen self.old).readings (seen self.new).readings (result ∷ []) };
}
