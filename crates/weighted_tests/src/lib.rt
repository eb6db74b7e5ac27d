//! Tests of weighted plans: their weights, plans, flows, verdicts and texts, by public calls.
#![tactic(auto)]

#[cfg(test)]
mod plans;
#[cfg(test)]
mod verdicts;
#[cfg(test)]
mod weights;
