//! The first text of a list that may not stand there as the name of a site.
ghost use Rattle.std.specs.Prelude.{◌≡◌, ◌<◌, IfNone, length};
ghost use Rattle.std.specs.List.{list_any};
ghost use Rattle.helios_model.specs.Naming.{first_bad_name, is_bad_name, AreNames};
ghost use Rattle.helios_model.specs.Texts.{same_text};

use crate::plans::Name;
use crate::texts::is_name;

fn is_among(names: &[Name], name: &Name) -> bool
    ensures { result ≡ list_any (same_text name.now) names.now }
{
    names.iter().any(|other| name.text() == other.text())
}

fn is_bad_name(names: &[Name], place: usize) -> bool
    requires { place < length names.now }
    ensures { result ≡ is_bad_name names.now place }
{
    !is_name(names[place].text()) || is_among(&names[..place], &names[place])
}

fn bad_place(names: &[Name]) -> Option<usize>
    ensures { result ≡ first_bad_name names.now }
{
    (0..names.len()).find(|place| is_bad_name(names, *place))
}

/// The place of the first text that is no name of a site (1 to 32 bytes of printable ASCII, none of them a blank), or
/// that stands before.
#[tactic(auto, using(crate::proofs::GoodNames::none_bad))]
pub fn first_bad_name(names: &[Name]) -> Option<u64>
    ensures exact { result ≡ first_bad_name names.now }
    ensures none { IfNone result (AreNames names.now) }
{
    bad_place(names).map(|place| place as u64)
}
