//! Between which sites a message goes.
use helios_model::SiteId;

/// The number of sites, one of them, and another one.
#[derive(Drop)]
pub(crate) struct Route {
    pub(crate) count: u8,
    pub(crate) from: SiteId,
    pub(crate) to: SiteId,
}
