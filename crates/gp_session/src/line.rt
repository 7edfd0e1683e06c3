//! The origin's end of a session.
ghost use Rattle.std.specs.Prelude.{◌≡◌, ◌++◌, List, ℕ};
ghost use Rattle.gp_exchange.specs.Answers.{Gives, Marked, head_after, head_of, rank};
ghost use Rattle.gp_exchange.specs.Moves.{StaysOver};
ghost use Rattle.gp_exchange.specs.Standing.{part_of};
ghost use Rattle.gp_session.specs.Lines.{Aim, LineRow, MovedLine, hung, new_line, speaking};

use gp_exchange::{Exchange, Progress};
use gp_outside::Dial;
use std::marker::Model;
use std::snapshot::Snapshot;

/// A dialer of origins.
#[derive(Drop)]
pub struct Line<D: Dial> {
    pub(crate) dial: D,
    /// The dialer as the session began with it, which contracts alone remember.
    start: Snapshot<D>,
}

impl<D: Dial> Model for Line<D> {
    ghost use Rattle.gp_session.specs.Lines.{LineView};

    ghost Value = { LineView };

    ghost view = { λ l. record { start = D.tells l.start.value; dial = D.tells l.dial } };
}

impl<D: Dial> Line<D> {
    /// The end of a session that begins with this dialer. It takes no memory.
    pub fn new(dial: D) -> Line<D>
        ensures { result ≡ new_line (D.tells dial) }
    {
        Line {
            start: Snapshot::of(&dial),
            dial,
        }
    }

    /// Goes on with an exchange.
    pub fn poll(&mut self, exchange: &mut Exchange) -> Progress
        ensures moved { MovedLine self.old self.new }
        ensures asked { exchange.new.asked ≡ exchange.old.asked }
        ensures gives { Gives exchange.old.place exchange.new.place self.old.dial self.new.dial result }
        ensures marked { Marked exchange.old.place exchange.new.place self.old.dial self.new.dial }
        ensures heads { head_of exchange.new.place ≡ head_after (head_of exchange.old.place) result }
        ensures over { StaysOver exchange.old.place exchange.new.place self.old.dial self.new.dial result }
        ensures row { (aims : List Aim) (given : List ℕ) → LineRow self.old aims (speaking (record { exchange = exchange.old; given = given })) → LineRow self.new aims (speaking (record { exchange = exchange.new; given = given ++ part_of result })) }
    {
        exchange.poll(&mut self.dial)
    }

    /// Ends the talk of an exchange, which then isn't polled any more.
    pub fn hang_up(&mut self, exchange: &Exchange)
        ensures moved { MovedLine self.old self.new }
        ensures dial { rank exchange.now.place ≡ 5 → self.new ≡ self.old }
        ensures row { (aims : List Aim) (given : List ℕ) → LineRow self.old aims (speaking (record { exchange = exchange.now; given = given })) → LineRow self.new aims (hung (record { exchange = exchange.now; given = given })) }
    {
        if !exchange.is_over() {
            self.dial.hang_up();
        }
    }

    /// The dialer as it stands.
    pub fn into_dial(self) -> D
        ensures { D.tells result ≡ self.dial }
    {
        self.dial
    }
}
