ghost use Rattle.std.specs.Prelude.{◌≡◌, ◌&&◌, ℕ, ◌+◌, ◌≤◌, List, Option, length, option_map, is_ok, if◌then◌else◌, nat_le, IfOk, IfSome, OnOk, OnErr};
ghost use Rattle.std.specs.Option.{ForSome};
ghost use Rattle.outside_io.specs.Causes.{HasCause, IsCount};
ghost use Rattle.disk_store.specs.Disk.{DiskState, IsImage, GivesBytes, MayHaveWritten, after_write, after_sync};
ghost use Rattle.disk_store.specs.Outlook.{Outlook, succeeds, is_done, outlook_next};
ghost use Rattle.disk_store.specs.Moments.{Elapses};
ghost use Rattle.disk_store.specs.declared.fate.Keep.{Keep};

use outside_io::Failed;

/// A disk of bytes. Until a sync succeeds a crash may leave any bytes where something was written.
pub trait Disk {
    /// What a read gives and what a crash now may leave, where the disk tells it.
    ghost state: { Self → Option DiskState };

    /// The states before this one, the oldest first, where the disk tells them.
    ghost past: { Self → Option (List DiskState) };

    /// The room and the call that is to fail, where the disk tells them.
    ghost outlook: { Self → Option Outlook };

    /// What a crash leaves of what is not synced, where the disk tells it.
    ghost keeps: { Self → Option Keep };

    /// How often a call has failed.
    ghost faults: { Self → ℕ };

    /// The number of bytes.
    fn len(&mut self) -> Result<u64, Failed>
        ensures length { IfOk result (λ size. IfSome (state self.old) (λ disk. size ≡ length disk.bytes)) }
        ensures same { state self.new ≡ state self.old }
        ensures same_past { past self.new ≡ past self.old }
        ensures image { IfSome (state self.new) (λ disk. IsImage disk disk.bytes) }
        ensures answer { IfSome (outlook self.old) (λ o. is_ok result ≡ succeeds o.failing) }
        ensures next { outlook self.new ≡ option_map outlook_next (outlook self.old) }
        ensures keeps { keeps self.new ≡ keeps self.old }
        ensures count { IsCount (faults self.new) }
        ensures cause { HasCause (faults self.old) (faults self.new) result };

    /// Reads the bytes from a place on, up to the end or to the buffer's length, and gives their number.
    fn read_at(&mut self, at: u64, into: &mut [u8]) -> Result<usize, Failed>
        ensures bound { IfOk result (λ count. count ≤ length into.new) }
        ensures bytes { IfOk result (λ count. IfSome (state self.old) (λ disk. GivesBytes disk.bytes at into.new count)) }
        ensures same { state self.new ≡ state self.old }
        ensures same_past { past self.new ≡ past self.old }
        ensures image { IfSome (state self.new) (λ disk. IsImage disk disk.bytes) }
        ensures answer { IfSome (outlook self.old) (λ o. is_ok result ≡ succeeds o.failing) }
        ensures next { outlook self.new ≡ option_map outlook_next (outlook self.old) }
        ensures keeps { keeps self.new ≡ keeps self.old }
        ensures count { IsCount (faults self.new) }
        ensures cause { HasCause (faults self.old) (faults self.new) result };

    /// Writes over the bytes from a place on, and past the end; the place is at most the length.
    fn write_at(&mut self, at: u64, from: &[u8]) -> Result<(), Failed>
        requires { ForSome (state self.old) (λ disk. at ≤ length disk.bytes) }
        ensures written { OnOk result (state self.new ≡ option_map (after_write at from.now) (state self.old)) }
        ensures torn { OnErr result (MayHaveWritten at (length from.now) (state self.old) (state self.new)) }
        ensures time { Elapses (past self.old) (past self.new) (state self.old) (state self.new) }
        ensures image { IfSome (state self.new) (λ disk. IsImage disk disk.bytes) }

        // Where the outlook is told, the call fails exactly where it is to fail or room is missing, and is
        // done all the same where it is the call that is to fail and the room suffices.
        ensures answer { IfSome (outlook self.old) (λ o. is_ok result ≡ (nat_le (at + length from.now) o.room && succeeds o.failing)) }
        ensures done { IfSome (outlook self.old) (λ o. OnErr result (state self.new ≡
            (if nat_le (at + length from.now) o.room && is_done o.failing
            then option_map (after_write at from.now) (state self.old) else state self.old))) }
        ensures next { outlook self.new ≡ option_map outlook_next (outlook self.old) }
        ensures keeps { keeps self.new ≡ keeps self.old }
        ensures count { IsCount (faults self.new) }
        ensures cause { HasCause (faults self.old) (faults self.new) result };

    /// Makes all that was written durable. A sync that fails counts as none.
    fn sync(&mut self) -> Result<(), Failed>
        ensures synced { OnOk result (state self.new ≡ option_map after_sync (state self.old)) }
        ensures failed { OnErr result (state self.new ≡ state self.old) }
        ensures time { Elapses (past self.old) (past self.new) (state self.old) (state self.new) }
        ensures image { IfSome (state self.new) (λ disk. IsImage disk disk.bytes) }
        ensures answer { IfSome (outlook self.old) (λ o. is_ok result ≡ succeeds o.failing) }
        ensures next { outlook self.new ≡ option_map outlook_next (outlook self.old) }
        ensures keeps { keeps self.new ≡ keeps self.old }
        ensures count { IsCount (faults self.new) }
        ensures cause { HasCause (faults self.old) (faults self.new) result };
}
