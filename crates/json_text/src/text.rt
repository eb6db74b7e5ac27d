//! The value of a whole text, and the text of a value.
ghost use Rattle.std.specs.Prelude.{◌≡◌, ◌≤◌, ℕ, List, [], ◌∷◌, ◌++◌, Some, false, IfOk, option_map};
ghost use Rattle.std.specs.Str.{IsUtf8};
ghost use Rattle.serde_json.specs.Data.{Data, depth};
ghost use Rattle.serde_json.specs.Read.{read};
ghost use Rattle.serde_json.specs.View.{view};
ghost use Rattle.serde_json.specs.Written.{compact_text, has_float};
ghost use Rattle.json_text.specs.Text.{json_of};

use helios_model::Bytes;
use serde_json::Value;
use std::alloc::{AllocError, Global};

/// The value of a whole text, `None` where the text is no JSON. Only want of memory is an error.
#[tactic(auto, using(crate::proofs::WholeText::found, crate::proofs::WholeText::refused))]
pub fn value_of(alloc: Global, text: &[u8]) -> Result<Option<Value>, AllocError>
    ensures { IfOk result (λ found. option_map view found ≡ json_of text.now) }
{
    match Value::from_slice(alloc, text) {
        Ok(value) => Ok(Some(value)),
        Err(error) if error.is_memory() => Err(AllocError),
        Err(_) => Ok(None),
    }
}

/// The text of a value without blanks, and a line feed. Only want of memory is an error.
pub fn line_of(alloc: Global, value: &Value) -> Result<Bytes, AllocError>
    ensures text { IfOk result (λ text. has_float (view value.now) ≡ false → text ≡ compact_text (view value.now) ++ 10 ∷ []) }
    ensures reads_back { IfOk result (λ text. depth (view value.now) ≤ 127 → json_of text ≡ Some (view value.now)) }
{
    let mut text = value.to_string(alloc)?;
    text.push('\n')?;
    Ok(Bytes::new(text.into_bytes()))
}

/// A text with a line feed behind it says what the text says.
#[tactic(auto, using(crate::proofs::LineFeed::json_of_fed))]
pub fn a_line_feed_says_nothing()
    ensures { (text : List ℕ) (d : Data) → IsUtf8 text → read text ≡ Some d → json_of (text ++ 10 ∷ []) ≡ Some d }
{}
