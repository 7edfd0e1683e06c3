//! How a stream goes on with the talk in which it asks for a page, and how it begins and ends one.
ghost use Rattle.std.specs.Prelude.{◌≡◌, is_some, true, IfSome};
ghost use Rattle.gp_instruct.specs.Targets.{IsTarget};
ghost use Rattle.gp_recover.specs.Views.{IsLive};
ghost use Rattle.gp_session.specs.Lines.{MovedLine};
ghost use Rattle.gp_session_recover.specs.Rows.{Begun, Closes, IsLiveTalk, Seeks, SeeksOpen, follow};
ghost use Rattle.gp_session_recover.specs.declared.talk.Talk.TheVariants as talk;

use crate::open::{Advanced, Open};
use crate::recovering::Recovering;
use crate::talk::Talk;
use gp_again::link_law;
use gp_outside::Dial;
use gp_plain::{Body, ItemId, Signer};
use gp_session::Line;
use std::snapshot::Snapshot;

impl Recovering {
    /// Asks by this link from then on, where there is one.
    fn follow(&mut self, link: Option<Body>)
        requires { IfSome link IsTarget }
        ensures { self.new ≡ record self.old { again = follow link self.old.again } }
    {
        if let Some(again) = &mut self.again {
            again.follow(link);
        }
    }

    /// Goes on with an open talk. Where it gives a page, that page's link is asked from then on. It answers whether there was memory.
    fn go_on<D: Dial>(&mut self, line: &mut Line<D>, opened: Open) -> bool
        requires live { IsLive opened.recovery.stage }
        requires none { self.old.talk ≡ talk.None }
        ensures stream { self.new.stream ≡ self.old.stream }
        ensures moved { MovedLine line.old line.new }
        ensures says { SeeksOpen opened self.old self.new line.old line.new result }
    {
        link_law();
        match opened.advance(line) {
            Advanced::Waits(open) => {
                self.set_talk(Talk::Open(open));
                true
            }
            Advanced::Got(page, link) => {
                self.follow(link);
                self.set_talk(Talk::Page(page));
                true
            }
            Advanced::Failed => {
                self.set_talk(Talk::Failed);
                true
            }
            Advanced::NoMemory => false,
        }
    }

    /// Goes on with the talk, where one is open. It answers whether there was memory.
    pub(crate) fn seek<D: Dial>(&mut self, line: &mut Line<D>) -> bool
        requires { IsLiveTalk self.old.talk }
        ensures { Seeks self.old self.new line.old line.new result }
    {
        match self.take_talk() {
            Talk::Open(open) => self.go_on(line, open),
            talk => {
                self.set_talk(talk);
                true
            }
        }
    }

    /// Begins a talk in which the page behind an id is asked for, with a token of this moment. It answers whether there was memory.
    pub(crate) fn begin(&mut self, signer: &Signer, now: u64, from: ItemId) -> bool
        requires { is_some self.old.again ≡ true }
        ensures { Begun self.old self.new signer.now now from result }
    {
        let Some(again) = &mut self.again else {
            unreachable!();
        };
        let Ok(id) = from.copy(self.alloc) else {
            drop(from);
            return false;
        };
        let Ok(recovery) = again.recovery(self.alloc, signer, now, id) else {
            drop(from);
            return false;
        };
        self.set_talk(Talk::Open(Open {
            recovery,
            from,
            moment: Snapshot::of(&now),
        }));
        true
    }

    /// Hangs up the talk, where one is open.
    pub(crate) fn close<D: Dial>(&mut self, line: &mut Line<D>)
        requires { IsLiveTalk self.old.talk }
        ensures { Closes self.old self.new line.old line.new }
    {
        match self.take_talk() {
            Talk::Open(open) => {
                line.leave(&open.recovery);
                drop(open);
            }
            talk => drop(talk),
        }
    }
}
