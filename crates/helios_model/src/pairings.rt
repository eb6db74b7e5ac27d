//! Laws of pairings: what they are by places, and how one shows that a plan is optimal.
ghost use Rattle.helios_model.specs.Pairings.{CertificatesShowOptimal, PairingsAreOrders, PairingsBound, PartnersAddUp};

/// A list is the sites in some order just where each site has a partner and no two have the same.
pub fn pairings_are_orders()
    ensures { PairingsAreOrders }
{}

/// Over a pairing, the numbers of the partners add up to the numbers of the sites.
pub fn partners_add_up()
    ensures { PartnersAddUp }
{}

/// A pairing bounds from below the sum of all numbers that reach the round trips of any two sites.
pub fn pairings_bound()
    ensures { PairingsBound }
{}

/// An accepted plan with a certificate is optimal.
pub fn certificates_show_optimal()
    ensures { CertificatesShowOptimal }
{}
