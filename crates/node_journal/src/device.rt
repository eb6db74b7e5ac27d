// Bytes that are written and made durable at once.
ghost use Rattle.std.specs.Prelude.{◌≡◌, ◌+◌, ◌≤◌, ◌&&◌, Some, length, option_map, is_ok, is_some, nat_le, if◌then◌else◌, IfSome, OnOk, OnErr};
ghost use Rattle.std.specs.Option.{ForSome};
ghost use Rattle.outside_io.specs.Causes.{HasCause, IsCount};
ghost use Rattle.disk_store.specs.Disk.{IsImage, MayHaveWritten, after_write, after_sync};
ghost use Rattle.disk_store.specs.Outlook.{never, is_done, outlook_next};
ghost use Rattle.disk_store.specs.Moments.{AtEachMoment};
ghost use Rattle.node_journal.specs.Appending.{lasts, spent, WhileWriting};
ghost use Rattle.node_journal.specs.Devices.{SameRoom, StaysQuiet};

use disk_store::Disk;
use outside_io::Failed;

/// Writes at a place, and syncs.
pub(crate) fn write_durably<D: Disk>(disk: &mut D, at: u64, bytes: &[u8]) -> Result<(), Failed>
    requires { ForSome (D.state disk.old) (λ d. at ≤ length d.bytes) }
    ensures ok { OnOk result (D.state disk.new ≡ option_map (λ d. after_sync (after_write at bytes.now d)) (D.state disk.old)) }
    ensures err { OnErr result (MayHaveWritten at (length bytes.now) (D.state disk.old) (D.state disk.new)) }
    ensures told { is_some (D.state disk.new) ≡ is_some (D.state disk.old) }
    ensures image { IfSome (D.state disk.new) (λ d. IsImage d d.bytes) }
    ensures room { SameRoom (D.outlook disk.old) (D.outlook disk.new) }
    ensures moments { IfSome (D.state disk.old) (λ d.
        AtEachMoment (D.past disk.old) (D.past disk.new) (D.state disk.new) (WhileWriting at bytes.now d)) }
    ensures answer { IfSome (D.outlook disk.old) (λ o. is_ok result ≡ (nat_le (at + length bytes.now) o.room && lasts 2 o.failing)) }
    ensures done { IfSome (D.outlook disk.old) (λ o. OnErr result (D.state disk.new ≡
        (if nat_le (at + length bytes.now) o.room && is_done o.failing
        then option_map (after_write at bytes.now) (D.state disk.old) else D.state disk.old))) }
    ensures next { OnOk result (D.outlook disk.new ≡ option_map (λ o. outlook_next (outlook_next o)) (D.outlook disk.old)) }
    ensures spent { IfSome (D.outlook disk.old) (λ o. OnErr result (D.outlook disk.new ≡ Some (spent (at + length bytes.now) o))) }
    ensures quiet { StaysQuiet (D.outlook disk.old) (D.outlook disk.new) }
    ensures keeps { D.keeps disk.new ≡ D.keeps disk.old }
    ensures count { IsCount (D.faults disk.new) }
    ensures cause { HasCause (D.faults disk.old) (D.faults disk.new) result }
{
    disk.write_at(at, bytes)?;
    disk.sync()
}
