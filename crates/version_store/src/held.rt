use helios_model::{TxnId, Val};

/// What a key holds: the transaction that wrote it last, and the value that this one wrote.
#[derive(Debug, Drop)]
pub struct Held {
    pub id: TxnId,
    pub value: Val,
}
