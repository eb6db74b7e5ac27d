use helios_model::{Key, Version};

/// What the audit of a history finds.
#[derive(Debug, Drop)]
pub enum AuditVerdict {
    /// Each of so many transactions read what the ones before it wrote.
    Serial(u64),
    /// The first read of another version than the one that was current: the place of its transaction from 0, its key, the
    /// version that was read, and the current one.
    NotSerial {
        place: u64,
        key: Key,
        read: Version,
        current: Version,
    },
}
