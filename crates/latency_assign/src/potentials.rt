use crate::ints::Ints;
use helios_model::Places;

/// Potentials of the sites as rows and as columns, in microseconds, and the number of each site's partner.
#[derive(Debug, Drop)]
pub struct Potentials {
    pub u: Ints,
    pub v: Ints,
    pub s: Places,
}
