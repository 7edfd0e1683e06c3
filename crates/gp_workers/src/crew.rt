//! What all workers share.
use crate::claims::Claims;
use gp_hub::Hub;

/// What all workers share.
#[derive(Drop)]
pub struct Crew<'a, M> {
    pub hub: &'a Hub,
    pub claims: &'a Claims,
    pub maker: &'a M,
    /// Claims below this number, which is below 2^32, are served.
    pub limit: u64,
    /// How many sessions a worker has at once, at most.
    pub most: usize,
}
