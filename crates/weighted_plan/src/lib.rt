//! The plan of a matrix with the least weighted sum of latencies, for sites whose loads differ, and the flow that shows it.
//! The layer above uses that weights are read exactly, that `weigh` answers an accepted plan and a flow of equal value,
//! so that no plan over the same round trips has a smaller weighted sum, that the verdict on them is exact, and that
//! they are printed exactly.
#![tactic(auto)]

mod cells;
mod checking;
mod growing;
mod lacks;
mod laws;
mod planting;
mod printing;
mod pushing;
mod reading;
mod refusal;
mod shifts;
mod sums;
mod tree;
mod values;
mod verdict;
mod weighing;
mod weights;

pub use checking::check_weighted;
pub use laws::flows_show_optimal;
pub use printing::print_weighted;
pub use reading::read_weights;
pub use refusal::WeightsRefusal;
pub use verdict::WeightedVerdict;
pub use weighing::weigh;
pub use weights::{Flow, Weights};
