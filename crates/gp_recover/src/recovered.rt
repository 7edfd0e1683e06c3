//! What a recovery answers.
ghost use Rattle.std.specs.Prelude.{◌≡◌};
ghost use Rattle.gp_recover.specs.Views.{again};

use crate::page::{Page, PageFault};
use std::snapshot::Snapshot;

/// What a poll of a recovery answers.
#[derive(Drop)]
pub enum Recovered {
    /// The page, which comes once.
    Got(Page),
    /// The dialer isn't ready.
    NotReady,
    /// The talk failed, or the answer is no page.
    Failed(PageFault),
    /// Memory is wanting.
    NoMemory,
}

/// How a recovery ended.
#[derive(Drop)]
pub(crate) enum Last {
    /// The page was given. Contracts alone remember it.
    Got(Snapshot<Page>),
    /// The talk failed, or the answer is no page.
    Failed(PageFault),
    /// Memory was wanting.
    NoMemory,
}

impl Last {
    /// What is answered from then on. A page is given once, and want of memory is told in its place.
    pub(crate) fn again(&self) -> Recovered
        ensures { result ≡ again self.now }
    {
        match self {
            Last::Got(_) => Recovered::NoMemory,
            Last::Failed(fault) => Recovered::Failed(*fault),
            Last::NoMemory => Recovered::NoMemory,
        }
    }
}
