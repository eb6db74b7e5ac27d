use helios_model::SiteId;

/// The verdict on a plan and its certificate.
#[derive(Clone, Copy, Debug, PartialEq, Eq)]
pub enum Verdict {
    /// No plan has a smaller average; the sum of the latencies, in half microseconds.
    Optimal(u64),
    /// The first two sites whose latencies together don't reach their round trip.
    Short(SiteId, SiteId),
    /// The first site whose partner is no site, or that of an earlier one.
    NoPairing(u64),
    /// The sum of the latencies and that of the round trips to the partners, which differ.
    ValueDiffers(u64, u64),
}
