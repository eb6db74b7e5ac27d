//! The names that the texts of an array are.
ghost use Rattle.std.specs.Prelude.{◌≡◌, IfOk, length};
ghost use Rattle.serde_json.specs.Find.{as_str};
ghost use Rattle.serde_json.specs.View.{items_view};
ghost use Rattle.json_text.specs.Lists.{each_of};
ghost use Rattle.json_text.specs.Unread.{ReadsAs};

use crate::lists::read_parts;
use crate::refusals::Unread;
use crate::spelled::NameReader;
use helios_model::Name;
use serde_json::Value;
use std::alloc::Global;

/// The names that all texts of an array are, whatever the texts. The caller knows how many there are.
#[tactic(auto, using(crate::proofs::Counting::parts_of_all, crate::proofs::Counting::read_len))]
pub fn read_names(alloc: Global, texts: &[Value]) -> Result<Vec<Name>, Unread>
    ensures exact { ReadsAs (λ v. v.items) result (each_of as_str (items_view texts.now)) }
    ensures size { IfOk result (λ v. length v.items ≡ length texts.now) }
{
    read_parts(alloc, texts, texts.len(), &NameReader)
}
