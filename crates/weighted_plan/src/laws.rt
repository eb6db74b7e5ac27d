//! A law is carried by a function with an empty body, whose one clause states it.
ghost use Rattle.weighted_plan.specs.Flows.{FlowsShowOptimal};

/// An accepted plan with a flow of equal value has the least weighted sum, over all latencies that reach the round trips.
pub fn flows_show_optimal()
    ensures { FlowsShowOptimal }
{}
