//! How many bytes a spelling has, told without memory.
ghost use Rattle.std.specs.Prelude.{◌≡◌, ◌≤◌, ◌*◌, ◌+◌, length};
ghost use Rattle.std.specs.List.{flat_map};
ghost use Rattle.helios_model.specs.Limits.{most_items, most_records};
ghost use Rattle.helios_model.specs.Spellable.{IsSpellableMessage};
ghost use Rattle.log_records.specs.Items.{list_bytes, read_bytes, reads_bytes, write_bytes, writes_bytes};
ghost use Rattle.log_records.specs.Ids.{version_bytes};
ghost use Rattle.log_records.specs.Keys.{key_bytes, value_bytes};
ghost use Rattle.log_records.specs.Messages.{message_bytes};
ghost use Rattle.log_records.specs.Records.{prepare_bytes, record_bytes};

use helios_model::{Key, Message, Prepare, ReadItem, Record, Val, Version, WriteItem};

pub(crate) fn version_length(version: Version) -> usize
    ensures value { result ≡ length (version_bytes version) }
    ensures most { result ≤ 10 }
{
    match version {
        Version::Initial => 1,
        Version::Of(_) => 10,
    }
}

pub(crate) fn key_length(key: &Key) -> usize
    ensures value { result ≡ length (key_bytes key.now) }
    ensures most { result ≤ 65 }
{
    1 + key.items().len()
}

pub(crate) fn value_length(value: &Val) -> usize
    ensures value { result ≡ length (value_bytes value.now) }
    ensures most { result ≤ 1026 }
{
    2 + value.items().len()
}

fn read_length(read: &ReadItem) -> usize
    ensures value { result ≡ length (read_bytes read.now) }
    ensures most { result ≤ 75 }
{
    key_length(&read.key) + version_length(read.version)
}

pub(crate) fn reads_length(reads: &[ReadItem]) -> usize
    requires { length reads.now ≤ most_items }
    ensures value { result ≡ length (reads_bytes reads.now) }
    ensures most { result ≤ 1201 }
{
    let mut length = 1;
    for read in reads {
        length += read_length(read);
    }
    length
}

fn write_length(write: &WriteItem) -> usize
    ensures value { result ≡ length (write_bytes write.now) }
    ensures most { result ≤ 1101 }
{
    key_length(&write.key) + value_length(&write.value) + version_length(write.over)
}

fn writes_length(writes: &[WriteItem]) -> usize
    requires { length writes.now ≤ most_items }
    ensures value { result ≡ length (writes_bytes writes.now) }
    ensures most { result ≤ 17617 }
{
    let mut length = 1;
    for write in writes {
        length += write_length(write);
    }
    length
}

fn prepare_length(prepare: &Prepare) -> usize
    ensures value { result ≡ length (prepare_bytes prepare.now) }
    ensures most { result ≤ 18827 }
{
    9 + reads_length(prepare.reads().items()) + writes_length(prepare.writes().items())
}

pub(crate) fn record_length(r: &Record) -> usize
    ensures value { result ≡ length (record_bytes r.now) }
    ensures most { result ≤ 18828 }
{
    match r {
        Record::Prepare(prepare) => 1 + prepare_length(prepare),
        Record::Commit { .. } => 18,
        Record::Abort { .. } => 27,
    }
}

fn records_length(records: &[Record]) -> usize
    requires { length records.now ≤ most_records }
    ensures value { result ≡ length (list_bytes record_bytes records.now) }
    ensures most { result ≤ 1 + 64 * 18828 }
{
    let mut length = 1;
    for r in records {
        length += record_length(r);
    }
    length
}

/// How many bytes the spelling of a message has: at most 1,213,476.
pub fn message_length(m: &Message) -> u64
    requires { IsSpellableMessage m.now }
    ensures value { result ≡ length (message_bytes m.now) }
    ensures most { result ≤ 1213476 }
{
    let times = m.table.items().len() + m.cover.items().len();
    (3 + 8 * times + records_length(m.records.items()) + 32) as u64
}
