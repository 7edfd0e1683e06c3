ghost use Rattle.std.specs.Prelude.{◌≡◌, ◌+◌, ◌^◌, ◌<◌, ◌≤◌, ◌==◌, ◌++◌, ◌∷◌, [], true, false, ℕ, List, Some, IsOk, vec_len, vec_capacity, IfOk, IfErr, OnOk, OnErr, MatchResult, All, count_by, map, length, is_some, option_map};
ghost use Rattle.gp_plain.specs.Fit.{fits, fits_spec};
ghost use Rattle.gp_plain.specs.History.{cause_at, held, kept_count, pending_at, position_at, reply};
ghost use Rattle.gp_plain.specs.Standing.{StandsFor};
ghost use Rattle.gp_plain.specs.Pieces.{id_or};
ghost use Rattle.gp_plain.specs.Refusals.{NeedsNoMemory, refuses};
ghost use Rattle.gp_plain.specs.declared.event.Entry.{Entry};
ghost use Rattle.gp_plain.specs.declared.reply.Reply.TheVariants.{Repeat};
ghost use Rattle.gp_plain.specs.Follow.{is_repeat};
ghost use Rattle.gp_plain.specs.Holds.{begun_state};
ghost use Rattle.gp_registry.specs.Keeps.{pushed};
ghost use Rattle.gp_registry.specs.Stages.{IsStaged, appends, committed, kept_hold, state_of};
ghost use Rattle.gp_registry.specs.Steps.{answered, found, kept_pending, kept_position, kept_cause, stepped};
ghost use Rattle.gp_registry.specs.Changes.{IsLeave, event_of};

use crate::change::Change;
use crate::hold::{Hold, commit_all, stage_all};
use crate::machine::{HoldMachine, begun};
use crate::order::{change_at, fail_at, page_at, place_of, release_at, take_at};
use gp_plain::{Body, EndCause, Event, HoldSpec, Item, ItemId, Pieces, Reply, Then};
use gp_window::Window;
use std::alloc::{AllocError, Global};
use std::marker::Model;

/// The holds that are kept, at most.
const PLACES: usize = 4096;

/// All holds. Contracts see what it keeps: the last items, the number of the next hold, and the kept holds in the order of
/// their numbers.
#[derive(Drop)]
pub struct Registry {
    alloc: Global,
    window: Window,
    next: u64,
    holds: Vec<Hold>,
}

impl Model for Registry {
    ghost use Rattle.gp_plain.specs.Standing.{Standing};

    ghost Value = { Standing };

    ghost use Rattle.gp_registry.specs.Stages.{IsInOrder, standing_now};

    ghost view = { λ r. standing_now r.window.items r.next r.holds.items };

    ghost invariant = { λ r. IsInOrder r.next r.holds.items };
}

/// The answer to a repeat, which has an id.
fn repeated(item: Item) -> Reply
    requires { is_some item.id ≡ true }
    ensures { result ≡ Repeat (id_or item.id []) }
{
    let Item { id, .. } = item;
    match id {
        Some(id) => Reply::Repeat(id),
        None => unreachable!(),
    }
}

/// A hold that is made of a specification, and room for it.
fn made(
    alloc: Global,
    holds: &mut Vec<Hold>,
    spec: &HoldSpec,
    window: &Window,
) -> Result<Box<HoldMachine>, AllocError>
    requires fits { fits_spec spec.now ≡ true }
    ensures same { holds.new.items ≡ holds.old.items }
    ensures place { OnOk result (vec_len holds.new < vec_capacity holds.new) }
    ensures made { IfOk result (λ machine. state_of machine.value ≡ begun_state spec.now window.now.items) }
{
    holds.reserve(1)?;
    let machine = begun(alloc, spec, window)?;
    match Box::new(alloc, machine) {
        Ok(machine) => Ok(machine),
        Err(_) => Err(AllocError),
    }
}

/// Plans what an item does to each hold, and takes the memory for it in the window. Nothing else changes.
fn plan_all(window: &mut Window, holds: &mut [Hold], item: &Item) -> Result<(), AllocError>
    ensures window { window.new.items ≡ window.old.items }
    ensures same { map kept_hold holds.new ≡ map kept_hold holds.old }
    ensures staged { OnOk result ((window.new.reserved ≡ true) × All (IsStaged item.now window.old.items) holds.new) }
{
    window.reserve()?;
    stage_all(holds, item, window)
}

/// Puts an item that is no repeat into the window, does in each hold what was planned by the window before it, and says
/// how many logs grew. It takes no memory.
fn carry_out(window: &mut Window, holds: &mut [Hold], item: Item) -> u32
    requires reserved { window.old.reserved ≡ true }
    requires fresh { is_repeat window.old.items item ≡ false }
    requires staged { All (IsStaged item window.old.items) holds.old }
    requires few { length holds.old ≤ 4096 }
    ensures window { window.new.items ≡ pushed window.old.items item }
    ensures kept { map kept_hold holds.new ≡ map (committed window.new.items) holds.old }
    ensures grew { result ≡ count_by (λ hold. appends hold.machine.value) holds.old }
{
    match window.push(item) {
        Ok(_) => commit_all(holds, window),
        Err(_) => unreachable!(),
    }
}

impl Registry {
    /// A registry that stands for the empty history. It takes no memory.
    pub fn new(alloc: Global) -> Registry
        ensures { StandsFor result [] }
    {
        Registry {
            alloc,
            window: Window::new(alloc),
            next: 0,
            holds: Vec::new(alloc),
        }
    }

    fn attach(&mut self, who: u64, spec: HoldSpec) -> Result<Reply, (HoldSpec, AllocError)>
        requires fits { fits_spec spec ≡ true }
        requires room { self.old.next < 2 ^ 62 }
        ensures ok { IfOk result (λ r. (r ≡ answered self.old who (Event.Attach spec)) × (self.new ≡ stepped self.old who (Event.Attach spec))) }
        ensures err { IfErr result (λ e. (e.0 ≡ spec) × (self.new ≡ self.old)) }
        ensures due { OnErr result (refuses (answered self.old who (Event.Attach spec)) ≡ false) }
    {
        if self.holds.len() >= PLACES {
            return Ok(Reply::Full(4096));
        }
        let machine = match made(self.alloc, &mut self.holds, &spec, &self.window) {
            Ok(machine) => machine,
            Err(refused) => return Err((spec, refused)),
        };
        let number = self.next;
        self.holds.push_reserved(Hold {
            number,
            owner: who,
            machine,
        });
        self.next = number + 1;
        Ok(Reply::Attached(number))
    }

    fn publish(&mut self, item: Item) -> Result<Reply, (Item, AllocError)>
        ensures ok { (who : ℕ) → IfOk result (λ r. (r ≡ answered self.old who (Event.Publish item)) × (self.new ≡ stepped self.old who (Event.Publish item))) }
        ensures err { IfErr result (λ e. (e.0 ≡ item) × (self.new ≡ self.old)) }
        ensures due { (who : ℕ) → OnErr result (refuses (answered self.old who (Event.Publish item)) ≡ false) }
    {
        if self.window.repeats(&item) {
            return Ok(repeated(item));
        }
        let holds = self.holds.as_mut_slice();
        match plan_all(&mut self.window, holds, &item) {
            Ok(()) => Ok(Reply::Published(carry_out(&mut self.window, holds, item))),
            Err(refused) => Err((item, refused)),
        }
    }

    fn take(&mut self, who: u64, hold: u64, now: u64) -> Result<Reply, AllocError>
        ensures ok { IfOk result (λ r. (r ≡ answered self.old who (Event.Take hold now)) × (self.new ≡ stepped self.old who (Event.Take hold now))) }
        ensures err { OnErr result (self.new ≡ self.old) }
        ensures due { OnErr result (refuses (answered self.old who (Event.Take hold now)) ≡ false) }
    {
        let Some(place) = place_of(self.holds.as_slice(), hold) else {
            return Ok(Reply::Unknown(hold));
        };
        let owner = self.holds[place].owner;
        if owner != who {
            return Ok(Reply::Foreign(owner));
        }
        let taken = take_at(&mut self.holds, place, now)?;
        Ok(Reply::Taken(taken))
    }

    fn page(
        &mut self,
        who: u64,
        hold: u64,
        from: &ItemId,
        to: &ItemId,
        bytes: &Body,
        then: Then,
    ) -> Result<Reply, AllocError>
        ensures ok { IfOk result (λ r. (r ≡ answered self.old who (Event.Page hold from.now to.now bytes.now then)) × (self.new ≡ stepped self.old who (Event.Page hold from.now to.now bytes.now then))) }
        ensures err { OnErr result (self.new ≡ self.old) }
        ensures due { OnErr result (refuses (answered self.old who (Event.Page hold from.now to.now bytes.now then)) ≡ false) }
    {
        let Some(place) = place_of(self.holds.as_slice(), hold) else {
            return Ok(Reply::Unknown(hold));
        };
        let owner = self.holds[place].owner;
        if owner != who {
            return Ok(Reply::Foreign(owner));
        }
        page_at(&mut self.holds, place, from, to, bytes, then, &self.window)
    }

    fn page_failed(&mut self, who: u64, hold: u64) -> Reply
        ensures { (result ≡ answered self.old who (Event.PageFailed hold)) × (self.new ≡ stepped self.old who (Event.PageFailed hold)) }
    {
        let Some(place) = place_of(self.holds.as_slice(), hold) else {
            return Reply::Unknown(hold);
        };
        let owner = self.holds[place].owner;
        if owner != who {
            return Reply::Foreign(owner);
        }
        fail_at(&mut self.holds, place)
    }

    fn change(&mut self, who: u64, hold: u64, change: Change) -> Result<Reply, (Change, AllocError)>
        ensures ok { IfOk result (λ r. (r ≡ answered self.old who (event_of hold change)) × (self.new ≡ stepped self.old who (event_of hold change))) }
        ensures err { IfErr result (λ e. (e.0 ≡ change) × (self.new ≡ self.old)) }
        ensures due { OnErr result (refuses (answered self.old who (event_of hold change)) ≡ false) }
        ensures free { IsLeave change → IsOk result }
    {
        let Some(place) = place_of(self.holds.as_slice(), hold) else {
            return Ok(Reply::Unknown(hold));
        };
        let owner = self.holds[place].owner;
        if owner != who {
            return Ok(Reply::Foreign(owner));
        }
        change_at(&mut self.holds, place, change)
    }

    fn change_now(
        &mut self,
        who: u64,
        hold: u64,
        change: Change,
    ) -> Result<Reply, (Event, AllocError)>
        ensures ok { IfOk result (λ r. (r ≡ answered self.old who (event_of hold change)) × (self.new ≡ stepped self.old who (event_of hold change))) }
        ensures err { IfErr result (λ e. (e.0 ≡ event_of hold change) × (self.new ≡ self.old)) }
        ensures due { OnErr result (refuses (answered self.old who (event_of hold change)) ≡ false) }
        ensures free { IsLeave change → IsOk result }
    {
        match self.change(who, hold, change) {
            Ok(reply) => Ok(reply),
            Err((change, refused)) => Err((change.into_event(hold), refused)),
        }
    }

    fn detach(&mut self, who: u64, hold: u64) -> Reply
        ensures { (result ≡ answered self.old who (Event.Detach hold)) × (self.new ≡ stepped self.old who (Event.Detach hold)) }
    {
        let Some(place) = place_of(self.holds.as_slice(), hold) else {
            return Reply::Unknown(hold);
        };
        let owner = self.holds[place].owner;
        if owner != who {
            return Reply::Foreign(owner);
        }
        release_at(&mut self.holds, place);
        Reply::Done
    }

    fn step_now(&mut self, who: u64, event: Event) -> Result<Reply, (Event, AllocError)>
        requires fits { fits event ≡ true }
        requires room { self.old.next < 2 ^ 62 }
        ensures ok { IfOk result (λ r. (r ≡ answered self.old who event) × (self.new ≡ stepped self.old who event)) }
        ensures err { IfErr result (λ e. (e.0 ≡ event) × (self.new ≡ self.old)) }
        ensures due { OnErr result (refuses (answered self.old who event) ≡ false) }
        ensures free { NeedsNoMemory event → IsOk result }
    {
        match event {
            Event::Attach { spec } => match self.attach(who, spec) {
                Ok(reply) => Ok(reply),
                Err((spec, refused)) => Err((Event::Attach { spec }, refused)),
            },
            Event::Publish { item } => match self.publish(item) {
                Ok(reply) => Ok(reply),
                Err((item, refused)) => Err((Event::Publish { item }, refused)),
            },
            Event::Take { hold, now } => match self.take(who, hold, now) {
                Ok(reply) => Ok(reply),
                Err(refused) => Err((Event::Take { hold, now }, refused)),
            },
            Event::Page {
                hold,
                from,
                to,
                bytes,
                then,
            } => match self.page(who, hold, &from, &to, &bytes, then) {
                Ok(reply) => Ok(reply),
                Err(refused) => {
                    let event = Event::Page {
                        hold,
                        from,
                        to,
                        bytes,
                        then,
                    };
                    Err((event, refused))
                }
            },
            Event::PageFailed { hold } => Ok(self.page_failed(who, hold)),
            Event::Push { hold, message } => self.change_now(who, hold, Change::Push(message)),
            Event::Join { hold, channel } => self.change_now(who, hold, Change::Join(channel)),
            Event::Leave { hold, channel } => self.change_now(who, hold, Change::Leave(channel)),
            Event::Detach { hold } => Ok(self.detach(who, hold)),
        }
    }

    /// Does what the event asks, and answers it. `who` is the number of the one who asks.
    ///
    /// An error comes from want of memory alone, and never where the event is to be refused: it changes nothing, and
    /// hands the event back. A refusal takes no memory, and neither do PageFailed, Leave and Detach, which are always
    /// answered.
    pub fn step(&mut self, who: u64, event: Event) -> Result<Reply, (Event, AllocError)>
        requires fits { fits event ≡ true }
        requires room { self.old.next < 2 ^ 62 }
        ensures number { self.new.next ≤ self.old.next + 1 }
        ensures reply { (past : List Entry) → StandsFor self.old past → IfOk result (λ r. (r ≡ reply past who event) × StandsFor self.new (past ++ (record { who = who; event = event }) ∷ [])) }
        ensures err { IfErr result (λ e. (e.0 ≡ event) × (self.new ≡ self.old)) }
        ensures due { (past : List Entry) → StandsFor self.old past → OnErr result (refuses (reply past who event) ≡ false) }
        ensures free { NeedsNoMemory event → IsOk result }
    {
        self.step_now(who, event)
    }

    /// How many holds are kept.
    pub fn kept(&self) -> u32
        ensures { (past : List Entry) → StandsFor self.now past → result ≡ kept_count (held past) }
    {
        self.holds.len() as u32
    }

    fn hold(&self, number: u64) -> Option<&Hold>
        ensures { option_map (λ hold. kept_hold hold.now) result ≡ found number self.now.kept }
    {
        match place_of(self.holds.as_slice(), number) {
            Some(place) => Some(&self.holds[place]),
            None => None,
        }
    }

    /// A copy of the pieces of a kept hold that weren't taken. It is empty for another number.
    pub fn pending(&self, hold: u64) -> Result<Pieces, AllocError>
        ensures { (past : List Entry) → StandsFor self.now past → IfOk result (λ pieces. pieces ≡ pending_at (held past) hold) }
    {
        match self.hold(hold) {
            Some(hold) => hold.machine().pending(),
            None => Ok(Pieces::new(self.alloc)),
        }
    }

    /// The position of a kept hold, and none for another number. It takes no memory.
    pub fn position(&self, hold: u64) -> Option<&ItemId>
        ensures { (past : List Entry) → StandsFor self.now past → option_map (λ id. id.now) result ≡ position_at (held past) hold }
    {
        match self.hold(hold) {
            Some(hold) => hold.machine().position(),
            None => None,
        }
    }

    /// Why a kept hold ended, and none for a live hold or another number. It takes no memory.
    pub fn cause(&self, hold: u64) -> Option<EndCause>
        ensures { (past : List Entry) → StandsFor self.now past → result ≡ cause_at (held past) hold }
    {
        match self.hold(hold) {
            Some(hold) => hold.machine().cause(),
            None => None,
        }
    }
}
