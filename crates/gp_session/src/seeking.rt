//! The talks with an origin that is asked for a page of a recovery.
ghost use Rattle.std.specs.Prelude.{◌≡◌, List};
ghost use Rattle.gp_recover.specs.Moves.{Gives, IsKept};
ghost use Rattle.gp_recover.specs.Views.{IsLive, answer_at, place_of};
ghost use Rattle.gp_session.specs.Lines.{Aim, LineRow, MovedLine, begun_with, idle};
ghost use Rattle.gp_session.specs.Seeking.{SeeksRow, said_by};

use crate::line::Line;
use gp_outside::Dial;
use gp_recover::{Recovered, Recovery};

impl<D: Dial> Line<D> {
    /// Goes on with a recovery.
    pub fn seek(&mut self, recovery: &mut Recovery) -> Recovered
        requires live { IsLive recovery.old.stage }
        ensures moved { MovedLine self.old self.new }
        ensures sought { recovery.new.sought ≡ recovery.old.sought }
        ensures kept { IsKept recovery.new.sought recovery.new.stage }
        ensures answers { result ≡ answer_at recovery.new.stage }
        ensures gives { Gives (place_of recovery.old) (place_of recovery.new) self.old.dial self.new.dial result }
        ensures row { (aims : List Aim) → SeeksRow self.old aims recovery.old → SeeksRow self.new aims recovery.new }
    {
        recovery.poll(&mut self.dial)
    }

    /// Ends the talk of a recovery, which then isn't polled any more.
    pub fn leave(&mut self, recovery: &Recovery)
        requires live { IsLive recovery.now.stage }
        ensures moved { MovedLine self.old self.new }
        ensures row { (aims : List Aim) → SeeksRow self.old aims recovery.now → LineRow self.new (begun_with aims (said_by recovery.now)) idle }
    {
        let _recovery = recovery;
        self.dial.hang_up();
    }
}
