ghost use Rattle.std.specs.Prelude.{◌≡◌, ℕ, ◌<◌, ◌↔◌, length, IsTrue, MatchOption};
ghost use Rattle.plan_certificate.specs.Verdict.{IsUnpaired, IsFirstUnpaired, ArePaired};

// Whether the partner at a place is no site, or is one that stands before.
fn is_unpaired(count: u8, pair: &[u8], place: usize) -> bool
    requires { place < length pair.now }
    ensures { IsTrue result ↔ IsUnpaired count pair.now place }
{
    let partner = pair[place];
    partner >= count || pair[..place].contains(&partner)
}

/// The first place whose partner is no site or stands before.
pub(crate) fn first_unpaired(count: u8, pair: &[u8]) -> Option<usize>
    ensures { MatchOption result (ArePaired count pair.now (length pair.now)) (IsFirstUnpaired count pair.now) }
{
    for place in 0..pair.len() {
        if is_unpaired(count, pair, place) {
            return Some(place);
        }
    }
    None
}
