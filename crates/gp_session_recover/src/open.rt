//! A talk in which a stream asks for a page.
ghost use Rattle.gp_recover.specs.Views.{IsLive};
ghost use Rattle.gp_session_recover.specs.Talks.{Advances};

use gp_outside::Dial;
use gp_plain::{Body, ItemId};
use gp_recover::{Page, Recovered, Recovery};
use gp_session::{Line, StreamPage};
use std::snapshot::Snapshot;

/// A talk in which the page behind an id is asked for. The moment of its token, in seconds, is remembered by contracts alone.
#[derive(Drop)]
pub(crate) struct Open {
    pub(crate) recovery: Recovery,
    pub(crate) from: ItemId,
    pub(crate) moment: Snapshot<u64>,
}

/// What a talk came to.
#[derive(Drop)]
pub(crate) enum Advanced {
    /// The dialer isn't ready.
    Waits(Open),
    /// This page, and the link that it gives.
    Got(StreamPage, Option<Body>),
    /// The page can't be had.
    Failed,
    /// Memory is wanting.
    NoMemory,
}

impl Open {
    /// Goes on with the talk.
    pub(crate) fn advance<D: Dial>(self, line: &mut Line<D>) -> Advanced
        requires live { IsLive self.recovery.stage }
        ensures { Advances self line.old line.new result }
    {
        let Open {
            mut recovery,
            from,
            moment,
        } = self;
        match line.seek(&mut recovery) {
            Recovered::NotReady => Advanced::Waits(Open {
                recovery,
                from,
                moment,
            }),
            Recovered::Got(page) => {
                drop(recovery);
                let Page {
                    to,
                    bytes,
                    then,
                    link,
                } = page;
                Advanced::Got(
                    StreamPage {
                        from,
                        to,
                        bytes,
                        then,
                    },
                    link,
                )
            }
            Recovered::Failed(_) => {
                drop(recovery);
                drop(from);
                Advanced::Failed
            }
            Recovered::NoMemory => {
                drop(recovery);
                drop(from);
                Advanced::NoMemory
            }
        }
    }
}
