//! The fingerprint of a plan, by which sites and clients know that they stand on the same one.
ghost use Rattle.std.specs.Prelude.{◌≡◌, IfOk};
ghost use Rattle.serde_json.specs.View.{view};
ghost use Rattle.commit_offsets.specs.Fingerprint.{canonical_data, canonical_members, fingerprint_of};

use crate::values::{RoundTrips, names, numbers, square};
use helios_model::Plan;
use serde_json::{Value, json};
use sha2::{Digest, Sha256};
use std::alloc::{AllocError, Global};

#[tactic(auto, unfolding(crate::specs::Fingerprint::canonical_members))]
fn members(alloc: Global, latency: Value, names: Value, rtt: Value) -> Result<Value, AllocError>
    ensures { IfOk result (λ v. view v ≡ canonical_members (view latency) (view names) (view rtt)) }
{
    json!(in alloc; {
        "latency": latency,
        "names": names,
        "rtt": rtt
    })
}

fn canonical_value(alloc: Global, plan: &Plan) -> Result<Value, AllocError>
    ensures { IfOk result (λ v. view v ≡ canonical_data plan.now) }
{
    let latency = numbers(alloc, plan.latencies().items())?;
    let names = names(alloc, plan.names().items())?;
    let rtt = square::<RoundTrips>(alloc, plan)?;
    members(alloc, latency, names, rtt)
}

/// The SHA-256 of the canonical text of a plan: its latencies, names and round trips as JSON without blanks, the members
/// in the order of their names, and no line feed. Only want of memory is an error.
#[tactic(auto, using(crate::proofs::Fingerprinted::canonical_no_float))]
pub fn fingerprint(alloc: Global, plan: &Plan) -> Result<[u8; 32], AllocError>
    ensures { IfOk result (λ digest. digest ≡ fingerprint_of plan.now) }
{
    let text = canonical_value(alloc, plan)?.to_string(alloc)?;
    Ok(Sha256::digest(text.as_bytes()))
}
