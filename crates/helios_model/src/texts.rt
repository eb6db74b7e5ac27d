//! How ids, versions, keys, values and names are printed, and how each is read from a text.
ghost use Rattle.std.specs.Prelude.{◌≡◌, ◌<◌, ◌≤◌, ◌↔◌, IsTrue, Ok, Some};
ghost use Rattle.std.specs.Char.{is_ascii_digit};
ghost use Rattle.std.specs.List.{list_all};
ghost use Rattle.std.specs.Result.{result_ok};
ghost use Rattle.helios_model.specs.Ids.{id_text, version_text};
ghost use Rattle.helios_model.specs.Limits.{last_time, most_sites};
ghost use Rattle.helios_model.specs.Spellable.{IsSpellableId, IsSpellableVersion};
ghost use Rattle.helios_model.specs.Spellings.{has_plain_front, id_from, id_of, is_name, is_name_byte, is_plain, key_of, number_of, value_of, version_of};
ghost use Rattle.helios_model.specs.Texts.{IsName};
ghost use Rattle.helios_model.specs.declared.ids.TxnId.{TxnId};
ghost use Rattle.helios_model.specs.declared.ids.Version.{Version};

use crate::ids::{SiteId, Time, TxnId, Version};
use crate::keys::{Key, Val};
use crate::limits::{LAST_TIME, MOST_NAME_BYTES, MOST_SITES};
use crate::numbers::Bytes;
use std::fmt;
use std::str::FromStr;

/// As `SITE@TIME`, both in decimal.
impl fmt::Display for TxnId {
    ghost output = { λ id. Some (id_text id) };

    fn fmt<W: fmt::Write>(&self, f: &mut fmt::Formatter<W>) -> fmt::Result {
        let site = self.site.number();
        let time = self.time.half_micros();
        write!(f, "{site}@{time}")
    }
}

/// As `initial`, or as the id of the transaction that wrote it.
impl fmt::Display for Version {
    ghost output = { λ version. Some (version_text version) };

    fn fmt<W: fmt::Write>(&self, f: &mut fmt::Formatter<W>) -> fmt::Result {
        match self {
            Version::Initial => write!(f, "initial"),
            Version::Of(id) => write!(f, "{id}"),
        }
    }
}

// ---- reading

/// The text spells no such thing.
#[derive(Clone, Copy, Debug, PartialEq, Eq)]
pub struct Misspelled;

/// Whether there is one digit, or more of which the first is not 0.
fn has_plain_front(digits: &[u8]) -> bool
    ensures { result ≡ has_plain_front digits.now }
{
    if digits.len() == 1 {
        return true;
    }
    digits.len() > 1 && digits[0] != b'0'
}

fn all_digits(digits: &[u8]) -> bool
    ensures { result ≡ list_all is_ascii_digit digits.now }
{
    digits.iter().all(|digit| digit.is_ascii_digit())
}

/// Whether the text is decimal digits, with no 0 in front of others.
fn is_plain(digits: &[u8]) -> bool
    ensures { result ≡ is_plain digits.now }
{
    has_plain_front(digits) && all_digits(digits)
}

/// The number below 2^64 that a text writes in decimal, with no 0 in front of other digits.
#[tactic(auto, unfolding(crate::specs::Spellings::number_of), using(crate::proofs::SpellingSteps::number_read, crate::proofs::SpellingSteps::number_refused))]
pub fn number_from(text: &str) -> Option<u64>
    ensures { result ≡ number_of text.now }
{
    if is_plain(text.as_bytes()) {
        text.parse::<u64>().ok()
    } else {
        None
    }
}

#[tactic(auto, unfolding(crate::specs::Spellings::id_from))]
fn id_at(site: u64, time: u64) -> Option<TxnId>
    ensures { result ≡ id_from site time }
{
    if site < u64::from(MOST_SITES) && time >= 1 && time <= LAST_TIME {
        Some(TxnId {
            site: SiteId::of(site as u8),
            time: Time::of(time),
        })
    } else {
        None
    }
}

#[tactic(auto, unfolding(crate::specs::Spellings::id_of), using(crate::proofs::SpellingSteps::no_sign))]
fn id_from(text: &str) -> Option<TxnId>
    ensures { result ≡ id_of text.now }
{
    let (site, time) = text.split_once('@')?;
    id_at(number_from(site)?, number_from(time)?)
}

/// From `SITE@TIME`, both in decimal with no 0 in front of other digits.
impl FromStr for TxnId {
    type Err = Misspelled;

    ghost from_str_gives = { λ text read. result_ok read ≡ id_of text };

    fn from_str(text: &str) -> Result<TxnId, Misspelled> {
        id_from(text).ok_or(Misspelled)
    }
}

#[tactic(auto, unfolding(crate::specs::Spellings::version_of))]
fn version_from(text: &str) -> Option<Version>
    ensures { result ≡ version_of text.now }
{
    if text == "initial" {
        return Some(Version::Initial);
    }
    let id = id_from(text)?;
    Some(Version::Of(id))
}

/// From `initial` or an id.
impl FromStr for Version {
    type Err = Misspelled;

    ghost from_str_gives = { λ text read. result_ok read ≡ version_of text };

    fn from_str(text: &str) -> Result<Version, Misspelled> {
        version_from(text).ok_or(Misspelled)
    }
}

/// The key that a text is, where it keeps the limits of a key.
#[tactic(auto, unfolding(crate::specs::Spellings::key_of), using(crate::proofs::SpellingSteps::is_key_of, crate::proofs::SpellingSteps::no_key_of))]
pub fn key_from(text: Bytes) -> Option<Key>
    ensures { result ≡ key_of text }
{
    Key::new(text)
}

/// The stored value that a text is, where it is not too long.
#[tactic(auto, unfolding(crate::specs::Spellings::value_of))]
pub fn value_from(text: Bytes) -> Option<Val>
    ensures { result ≡ value_of text }
{
    Val::new(text)
}

fn are_printable(bytes: &[u8]) -> bool
    ensures { result ≡ list_all is_name_byte bytes.now }
{
    bytes.iter().all(|b| *b >= 33 && *b <= 126)
}

/// Whether a text is the name of a site: 1 to 32 bytes of printable ASCII, none of them a blank.
#[tactic(auto, unfolding(crate::specs::Spellings::is_name), using(crate::proofs::SpellingSteps::name_says, crate::proofs::SpellingSteps::says_name))]
pub fn is_name(text: &str) -> bool
    ensures exact { result ≡ is_name text.now }
    ensures says { IsTrue result ↔ IsName text.now }
{
    let bytes = text.as_bytes();
    !bytes.is_empty() && bytes.len() <= MOST_NAME_BYTES && are_printable(bytes)
}

// ---- laws

/// An id that has a spelling is read again as it was.
#[tactic(auto, using(crate::proofs::SpellingLaws::id_read_again))]
pub fn ids_are_read_again()
    ensures { (id : TxnId) → IsSpellableId most_sites id → id_of (id_text id) ≡ Some id }
{}

/// A version that has a spelling is read again as it was.
#[tactic(auto, using(crate::proofs::SpellingLaws::version_read_again))]
pub fn versions_are_read_again()
    ensures { (version : Version) → IsSpellableVersion version → version_of (version_text version) ≡ Some version }
{}
