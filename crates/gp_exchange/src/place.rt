ghost use Rattle.std.specs.Prelude.{◌≡◌, None};
ghost use Rattle.gp_exchange.specs.Answers.{told};
ghost use Rattle.gp_exchange.specs.declared.place.Place.TheVariants as place;
ghost use Rattle.gp_outside.specs.Dials.{after_hang_up};

use crate::answer::{Last, Progress};
use crate::heading::Heading;
use crate::reading::Reading;
use crate::sending::Sending;
use gp_outside::Dial;
use gp_plain::{Address, Body, Response};
use std::marker::Model;
use std::snapshot::Snapshot;

/// What is asked in an exchange, and of whom.
#[derive(Drop)]
pub(crate) struct Asked {
    /// Where the talk goes.
    pub to: Address,
    /// The bytes that are sent, for contracts alone.
    pub request: Snapshot<Body>,
    /// The method of the request.
    pub method: Body,
    /// The most bytes of content of the body.
    pub limit: u64,
}

impl Model for Asked {
    ghost use Rattle.gp_exchange.specs.Views.{AskedView};

    ghost Value = { AskedView };

    ghost view = { λ a. record { to = a.to; request = a.request.value; method = a.method; limit = a.limit } };
}

/// What an exchange waits for. The request is kept until all of it was sent, and the bytes of a head until it is whole.
///
/// ```text
/// Unbegun -> Connecting -> Sending -> Heading -> Reading
///    \___________\____________\__________\__________\___> Over
/// ```
#[derive(Drop)]
pub(crate) enum Place {
    /// The first poll. It keeps the request.
    Unbegun(Body),
    /// The connection. It keeps the request.
    Connecting(Body),
    /// The dialer to take the rest of the request.
    Sending(Sending),
    /// The rest of the response's head.
    Heading(Heading),
    /// The rest of its body.
    Reading(Reading),
    /// Nothing: the talk is over.
    Over(Over),
}

/// How an exchange ended.
#[derive(Drop)]
pub(crate) struct Over {
    /// What is answered.
    pub last: Last,
    /// Whether the input ended.
    pub ended: bool,
    /// The head that was given, for contracts alone.
    pub head: Option<Snapshot<Response>>,
}

/// Where a move leads, and what is answered there.
#[derive(Drop)]
pub(crate) struct Next {
    pub place: Place,
    pub progress: Progress,
}

impl Over {
    /// The end before a head was given.
    pub(crate) fn before_head(last: Last, ended: bool) -> Over
        ensures { result ≡ record { last = last; ended = ended; head = None } }
    {
        Over {
            last,
            ended,
            head: None,
        }
    }

    /// Ends the talk.
    pub(crate) fn hang_up<D: Dial>(self, dial: &mut D) -> Next
        ensures place { result.place ≡ place.Over self }
        ensures progress { result.progress ≡ told self.last }
        ensures dial { D.tells dial.new ≡ after_hang_up (D.tells dial.old) }
    {
        dial.hang_up();
        self.again()
    }

    /// Answers again what was answered.
    pub(crate) fn again(self) -> Next
        ensures place { result.place ≡ place.Over self }
        ensures progress { result.progress ≡ told self.last }
    {
        let progress = self.last.told();
        Next {
            place: Place::Over(self),
            progress,
        }
    }
}
