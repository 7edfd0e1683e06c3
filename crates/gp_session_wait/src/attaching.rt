//! How the hold of a long poll is attached.
ghost use Rattle.std.specs.Prelude.{ℕ, ◌≡◌, ◌≤◌, Bool, List, Option, None, Some, IfOk};
ghost use Rattle.gp_plain.specs.declared.event.HoldSpec.{HoldSpec as Spec};
ghost use Rattle.gp_instruct.specs.Spec.{IsCounted, deadline};
ghost use Rattle.gp_instruct.specs.declared.instruct.Mode.TheVariants.{Response};
ghost use Rattle.gp_session.specs.Seats.{MovedSeat, SeatRow};
ghost use Rattle.gp_session_hold.specs.Rows.{AttachRow, EntriesRow, HoldsRow, none};
ghost use Rattle.gp_session_hold.specs.Opens.{AttachesTo, OpensTo, last_opened};
ghost use Rattle.gp_session_wait.specs.Openings.{BeginsAs, CanOpen, OpensFor, opened_of, spec_at};
ghost use Rattle.gp_session_wait.specs.Waits.{channel_of, is_again, most_repeats};

use crate::answer::Answer;
use crate::opening::{Began, Opening};
use crate::seeking::LongPoll;
use crate::wait::Wait;
use gp_instruct::{Instruct, spec_law};
use gp_plain::{Body, HoldReports, HoldSpec, ItemId, Name, Names};
use gp_session::Seat;
use gp_session_hold::{Opened, attach};
use std::alloc::{AllocError, Global};
use std::snapshot::Snapshot;

/// A copy of the channel of which a repeat tells the last item.
fn channel_of(
    alloc: Global,
    channels: &Names,
    prev: &Option<ItemId>,
) -> Result<Option<Name>, AllocError>
    ensures { IfOk result (λ channel. channel ≡ channel_of channels.now prev.now) }
{
    match (prev, channels.at(0)) {
        (Some(_), Some(name)) => Ok(Some(name.copy(alloc)?)),
        _ => Ok(None),
    }
}

/// The channels and the previous id of a long poll.
fn into_channels(spec: HoldSpec) -> (Names, Option<ItemId>)
    requires { (channels : List (List ℕ)) × (prev : Option (List ℕ)) × (deadline : ℕ) × (again : Bool) × (spec ≡ HoldSpec.Response channels prev deadline again) }
    ensures { (deadline : ℕ) × (again : Bool) × (spec ≡ HoldSpec.Response result.0 result.1 deadline again) }
{
    match spec {
        HoldSpec::Response { channels, prev, .. } => (channels, prev),
        _ => unreachable!(),
    }
}

/// What is attached at a moment: the deadline is so many seconds later, at most 2^64 - 1.
fn spec_of(channels: Names, prev: Option<ItemId>, seconds: u32, repeats: u8, now: u64) -> HoldSpec
    ensures { result ≡ HoldSpec.Response channels prev (deadline now seconds) (is_again repeats) }
{
    HoldSpec::Response {
        channels,
        prev,
        deadline: now.saturating_add(u64::from(seconds)),
        again: repeats > 0,
    }
}

impl Opening {
    /// Of an instruction that asks for a long poll, whose answer this is, where the request was repeated so often.
    pub fn new(
        alloc: Global,
        instruct: Instruct,
        own: Answer,
        repeats: u8,
    ) -> Result<Opening, AllocError>
        requires mode { instruct.mode ≡ Some Response }
        requires counted { IsCounted instruct }
        requires few { repeats ≤ most_repeats }
        ensures { IfOk result (OpensFor instruct own repeats) }
    {
        spec_law();
        let seconds = instruct.timeout;
        let Some(spec) = instruct.into_spec(alloc, Body::empty(alloc), 0, repeats > 0)? else {
            unreachable!()
        };
        let (channels, prev) = into_channels(spec);
        let channel = channel_of(alloc, &channels, &prev)?;
        Ok(Opening {
            alloc,
            channels,
            prev,
            seconds,
            own,
            channel,
            repeats,
        })
    }

    /// Attaches the hold, with room for its report. `now` is the moment of this poll in seconds: the deadline is so many seconds later as the
    /// long poll waits, at most 2^64 - 1.
    pub fn attach(self, seat: &mut Seat<'_>, reports: &mut HoldReports, now: u64) -> Began
        requires { CanOpen self }
        ensures moved { MovedSeat seat.old seat.new }
        ensures row { SeatRow seat.old → SeatRow seat.new }
        ensures items { reports.new.items ≡ reports.old.items }
        ensures opens { OpensTo seat.old seat.new (spec_at self now) reports.new.spare (opened_of now result) }
        ensures begins { BeginsAs self now seat.new result }
        ensures holds { HoldsRow seat.old reports.old.items none → HoldsRow seat.new reports.new.items (last_opened (opened_of now result)) }
        ensures entries { EntriesRow seat.old → EntriesRow seat.new }
        ensures attaches { (specs : List Spec) → AttachRow seat.old specs None → AttachesTo seat.new specs (spec_at self now) (opened_of now result) }
    {
        let Opening {
            alloc,
            channels,
            prev,
            seconds,
            own,
            channel,
            repeats,
        } = self;
        let spec = spec_of(channels, prev, seconds, repeats, now);
        let said = Snapshot::of(&spec);
        match attach(alloc, seat, reports, spec) {
            Opened::Kept(hold) => Began::Waits(Wait {
                alloc,
                poll: LongPoll { hold, spec: said },
                own,
                channel,
                repeats,
            }),
            Opened::Full => Began::Full,
            Opened::Busy(spec) => {
                let (channels, prev) = into_channels(spec);
                Began::Busy(Opening {
                    alloc,
                    channels,
                    prev,
                    seconds,
                    own,
                    channel,
                    repeats,
                })
            }
            Opened::Worn => Began::Worn,
            Opened::NoMemory => Began::NoMemory,
        }
    }
}
