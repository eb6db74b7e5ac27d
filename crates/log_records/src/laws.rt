//! What holds of the spellings themselves.
ghost use Rattle.std.specs.Prelude.{◌≡◌, ◌<◌, ◌≤◌, ◌++◌, ℕ, List, [], All, length};
ghost use Rattle.helios_model.specs.declared.records.Record.{Record};
ghost use Rattle.helios_model.specs.declared.entries.Entry.{Entry};
ghost use Rattle.helios_model.specs.declared.messages.Message.{Message};
ghost use Rattle.helios_model.specs.Limits.{most_inputs};
ghost use Rattle.helios_model.specs.Spellable.{IsSpellableEntry, IsSpellableInput, IsSpellableMessage, IsSpellableRecord};
ghost use Rattle.log_records.specs.declared.heads.Head.{Head};
ghost use Rattle.log_records.specs.Entries.{IsSpellableBatch, IsWritable, batch_bytes, batch_of, entries_at, entry_at, entry_bytes};
ghost use Rattle.log_records.specs.Heads.{head_bytes, head_of, IsSpellableHead};
ghost use Rattle.log_records.specs.Messages.{message_at, message_bytes};
ghost use Rattle.log_records.specs.Records.{record_bytes, record_at};

/// A record that has a spelling is read again as it was, whatever follows it.
#[tactic(auto, using(crate::proofs::Again::record_again))]
pub fn records_are_read_again()
    ensures { (count whole : ℕ) (r : Record) (rest : List ℕ) → IsSpellableRecord count r → record_at count whole (record_bytes r ++ rest) ≡ Ok (r, rest) }
{}

/// What is read from bytes is a record that has a spelling, and they begin with it.
pub fn what_is_read_has_a_spelling()
    ensures { (count whole : ℕ) (bytes : List ℕ) (r : Record) (rest : List ℕ) → All (λ b. b < 256) bytes → record_at count whole bytes ≡ Ok (r, rest)
        → IsSpellableRecord count r × (bytes ≡ record_bytes r ++ rest) }
{}

/// A head that has a spelling is read again as it was.
#[tactic(auto, using(crate::proofs::HeadFields::head_again))]
pub fn heads_are_read_again()
    ensures { (head : Head) → IsSpellableHead head → head_of (head_bytes head) ≡ Ok head }
{}

/// What is read from bytes is a head that has a spelling, and they are it.
pub fn what_is_read_is_a_head()
    ensures { (bytes : List ℕ) (head : Head) → All (λ b. b < 256) bytes → head_of bytes ≡ Ok head → IsSpellableHead head × (bytes ≡ head_bytes head) }
{}

/// No spelling of a head begins the spelling of another one.
pub fn no_head_begins_another()
    ensures { (head other : Head) (rest : List ℕ) → IsSpellableHead head → IsSpellableHead other → head_bytes other ≡ head_bytes head ++ rest
        → (head ≡ other) × (rest ≡ []) }
{}

/// A message that has a spelling is read again as it was, whatever follows it.
#[tactic(auto, using(crate::proofs::MessageAgain::message_again))]
pub fn messages_are_read_again()
    ensures { (whole : ℕ) (m : Message) (rest : List ℕ) → IsSpellableMessage m → message_at whole (message_bytes m ++ rest) ≡ Ok (m, rest) }
{}

/// What is read from bytes is a message that has a spelling, and they begin with it.
pub fn what_is_read_is_a_message()
    ensures { (whole : ℕ) (bytes : List ℕ) (m : Message) (rest : List ℕ) → All (λ b. b < 256) bytes → message_at whole bytes ≡ Ok (m, rest)
        → IsSpellableMessage m × (bytes ≡ message_bytes m ++ rest) }
{}

/// No spelling of a record begins the spelling of another one of so many sites, and none of a message that of another one.
pub fn no_spelling_begins_another()
    ensures records { (count : ℕ) (r other : Record) (rest : List ℕ) → IsSpellableRecord count r → IsSpellableRecord count other → record_bytes other ≡ record_bytes r ++ rest
        → (r ≡ other) × (rest ≡ []) }
    ensures messages { (m other : Message) (rest : List ℕ) → IsSpellableMessage m → IsSpellableMessage other → message_bytes other ≡ message_bytes m ++ rest
        → (m ≡ other) × (rest ≡ []) }
{}

/// An entry that has a spelling is read again as it was, whatever follows it.
pub fn entries_are_read_again()
    ensures { (count whole : ℕ) (e : Entry) (rest : List ℕ) → IsSpellableEntry count e → entry_at count whole (entry_bytes e ++ rest) ≡ Ok (e, rest) }
{}

/// What is read from bytes is an entry that has a spelling, and they begin with it.
pub fn what_is_read_is_an_entry()
    ensures { (count whole : ℕ) (bytes : List ℕ) (e : Entry) (rest : List ℕ) → All (λ b. b < 256) bytes → entry_at count whole bytes ≡ Ok (e, rest)
        → IsSpellableEntry count e × (bytes ≡ entry_bytes e ++ rest) }
{}

/// A batch that has a spelling is read again as it was, whatever follows it, and is what the whole of its spelling says.
pub fn batches_are_read_again()
    ensures { (count : ℕ) (entries : List Entry) → IsSpellableBatch count entries
        → (batch_of count (batch_bytes entries) ≡ Ok entries) × ((whole : ℕ) (rest : List ℕ) → entries_at count whole (batch_bytes entries ++ rest) ≡ Ok (entries, rest)) }
{}

/// What is read from bytes is a batch that has a spelling, and they are it.
pub fn what_is_read_is_a_batch()
    ensures { (count : ℕ) (bytes : List ℕ) (entries : List Entry) → All (λ b. b < 256) bytes → batch_of count bytes ≡ Ok entries → IsSpellableBatch count entries × (bytes ≡ batch_bytes entries) }
{}

/// An entry that has a spelling can be written.
pub fn entries_can_be_written()
    ensures { (count : ℕ) (e : Entry) → IsSpellableEntry count e → IsWritable e }
{}

/// A batch that has a spelling can be written.
pub fn batches_can_be_written()
    ensures { (count : ℕ) (entries : List Entry) → IsSpellableBatch count entries → All IsWritable entries }
{}

/// No batch has a spelling of more than 19,415,761 bytes.
pub fn no_batch_is_longer()
    ensures { (count : ℕ) (entries : List Entry) → length entries ≤ most_inputs → All (λ e. IsSpellableInput count e.input) entries → length (batch_bytes entries) ≤ 19415761 }
{}

/// No spelling of an entry begins the spelling of another one of so many sites.
pub fn no_entry_begins_another()
    ensures { (count : ℕ) (e other : Entry) (rest : List ℕ) → IsSpellableEntry count e → IsSpellableEntry count other → entry_bytes other ≡ entry_bytes e ++ rest
        → (e ≡ other) × (rest ≡ []) }
{}

/// No spelling of a batch begins the spelling of another one of so many sites.
pub fn no_batch_begins_another()
    ensures { (count : ℕ) (entries other : List Entry) (rest : List ℕ) → IsSpellableBatch count entries → IsSpellableBatch count other → batch_bytes other ≡ batch_bytes entries ++ rest
        → (entries ≡ other) × (rest ≡ []) }
{}
