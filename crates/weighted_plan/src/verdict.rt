use helios_model::SiteId;

/// The verdict on a plan, weights and a flow.
#[derive(Clone, Copy, Debug, PartialEq, Eq)]
pub enum WeightedVerdict {
    /// No plan has a smaller weighted sum; the latencies, each times its site's weight, added up, in half microseconds.
    Optimal(u64),
    /// The first two sites whose latencies together don't reach their round trip.
    Short(SiteId, SiteId),
    /// The first site whose row or column hasn't as many units as its weight.
    BadFlow(u64),
    /// The weighted sum of the latencies and the sum of the round trips that the units flow over, which differ.
    ValueDiffers(u64, u64),
}
