ghost use Rattle.std.specs.Prelude.{◌≡◌, List, None, Some, IfOk, IfErr, IsOk, OnOk, OnErr, option_map, true, false};
ghost use Rattle.gp_plain.specs.Fit.{fits_spec};
ghost use Rattle.gp_plain.specs.History.{page_of};
ghost use Rattle.gp_plain.specs.Holds.{after_change, after_failure, after_page, after_take, begun_state, change_reply, done_or_full, is_socket, with_change, failure_reply, is_stream, page_refusal, page_reply, refusal, settled_if, taken_of};
ghost use Rattle.gp_plain.specs.Plans.{IsPlanReady, grows, with_plan};
ghost use Rattle.gp_plain.specs.declared.item.Item.{Item};
ghost use Rattle.gp_plain.specs.declared.reply.Reply.TheVariants.{Done};
ghost use Rattle.gp_registry.specs.Changes.{IsLeave, change_of};
ghost use Rattle.gp_registry.specs.Stages.{IsRunStaged, IsReadyHold, IsStagedBy, IsStreamStaged, appends, staged, state_of};

use crate::change::Change;
use gp_hold_response::{ResponseHold, ResponsePlan};
use gp_hold_socket::{SocketHold, SocketPlan};
use gp_hold_stream::{PlainHold, PlainPlan, StreamHold, StreamPlan};
use gp_plain::{Body, EndCause, HoldKind, HoldSpec, Item, ItemId, Pieces, Reply, Taken, Then};
use gp_window::Window;
use std::alloc::{AllocError, Global};

/// A hold of any kind, and what an item that is served is to do to it.
#[derive(Drop)]
pub enum HoldMachine {
    /// A reliable stream, and what an item is to do to it.
    Stream {
        hold: StreamHold,
        plan: Option<StreamPlan>,
    },
    /// A stream without a position, and what an item is to do to it.
    Plain {
        hold: PlainHold,
        plan: Option<PlainPlan>,
    },
    /// A response hold, and what an item is to do to it.
    Response {
        hold: ResponseHold,
        plan: Option<ResponsePlan>,
    },
    /// A socket, and what an item is to do to it.
    Socket {
        hold: SocketHold,
        plan: Option<SocketPlan>,
    },
}

/// A hold that is served nothing yet.
pub fn begun(alloc: Global, spec: &HoldSpec, window: &Window) -> Result<HoldMachine, AllocError>
    requires fits { fits_spec spec.now ≡ true }
    ensures { IfOk result (λ machine. state_of machine ≡ begun_state spec.now window.now.items) }
{
    match spec {
        HoldSpec::Stream {
            opening,
            channel,
            prev,
            link,
        } => Ok(HoldMachine::Stream {
            hold: StreamHold::begin(alloc, channel, prev, *link, opening, window)?,
            plan: None,
        }),
        HoldSpec::Plain { opening, channels } => Ok(HoldMachine::Plain {
            hold: PlainHold::begin(alloc, channels, opening)?,
            plan: None,
        }),
        HoldSpec::Response {
            channels,
            prev,
            deadline,
            again,
        } => Ok(HoldMachine::Response {
            hold: ResponseHold::begin(alloc, channels, prev.as_ref(), *deadline, *again, window)?,
            plan: None,
        }),
        HoldSpec::Socket => Ok(HoldMachine::Socket {
            hold: SocketHold::begin(alloc),
            plan: None,
        }),
    }
}

/// No plan any more. Where there was none nothing is written.
fn forget<T: Drop>(plan: &mut Option<T>)
    ensures { plan.new ≡ None }
{
    if plan.is_some() {
        *plan = None;
    }
}

/// Plans what an item does to a hold that hears it, and nothing to another.
fn stage_stream(
    hold: &StreamHold,
    plan: &mut Option<StreamPlan>,
    item: &Item,
    window: &Window,
) -> Result<(), AllocError>
    ensures { OnOk result (IsStreamStaged item.now window.now.items hold.now plan.new) }
{
    if hold.hears(item) {
        *plan = Some(hold.plan(item, window)?);
    } else {
        forget(plan);
    }
    Ok(())
}

fn stage_plain(
    hold: &PlainHold,
    plan: &mut Option<PlainPlan>,
    item: &Item,
) -> Result<(), AllocError>
    ensures { (window : List Item) → OnOk result (IsRunStaged item.now window hold.now plan.new) }
{
    if hold.hears(item) {
        *plan = Some(hold.plan(item)?);
    } else {
        forget(plan);
    }
    Ok(())
}

fn stage_response(
    hold: &ResponseHold,
    plan: &mut Option<ResponsePlan>,
    item: &Item,
    window: &Window,
) -> Result<(), AllocError>
    ensures { OnOk result (IsStreamStaged item.now window.now.items hold.now plan.new) }
{
    if hold.hears(item) {
        *plan = Some(hold.offer(item, window)?);
    } else {
        forget(plan);
    }
    Ok(())
}

fn stage_socket(
    hold: &SocketHold,
    plan: &mut Option<SocketPlan>,
    item: &Item,
) -> Result<(), AllocError>
    ensures { (window : List Item) → OnOk result (IsRunStaged item.now window hold.now plan.new) }
{
    if hold.hears(item) {
        *plan = Some(hold.offer(item)?);
    } else {
        forget(plan);
    }
    Ok(())
}

/// Carries out a plan, and settles the marks of a hold that went on.
fn commit_stream(hold: &mut StreamHold, plan: StreamPlan, window: &Window) -> bool
    requires { IsPlanReady hold.old plan }
    ensures state { hold.new.state ≡ settled_if (grows plan) window.now.items (with_plan hold.old.state plan) }
    ensures grew { result ≡ grows plan }
{
    let grew = hold.commit(plan);
    if grew {
        hold.settle(window);
    }
    grew
}

/// Carries out a plan, and settles the mark of a hold that went on.
fn commit_response(hold: &mut ResponseHold, plan: ResponsePlan, window: &Window) -> bool
    requires { IsPlanReady hold.old plan }
    ensures state { hold.new.state ≡ settled_if (grows plan) window.now.items (with_plan hold.old.state plan) }
    ensures grew { result ≡ grows plan }
{
    let went_on = hold.commit(plan);
    if went_on {
        hold.settle(window);
    }
    went_on
}

/// Why a page is refused by a hold of this end and this kind: it ended, or it is no reliable stream.
fn page_refusal(cause: Option<EndCause>, kind: HoldKind) -> Option<Reply>
    ensures { result ≡ refusal cause (is_stream kind) kind }
{
    match (cause, kind) {
        (Some(cause), _) => Some(Reply::Gone(cause)),
        (None, HoldKind::Stream) => None,
        (None, kind) => Some(Reply::OtherKind(kind)),
    }
}

/// How a hold that is no reliable stream refuses a page.
fn refused(cause: Option<EndCause>, kind: HoldKind) -> Reply
    requires { is_stream kind ≡ false }
    ensures { refusal cause (is_stream kind) kind ≡ Some result }
{
    match page_refusal(cause, kind) {
        Some(reply) => reply,
        None => unreachable!(),
    }
}

/// Brings a reliable stream a page, where it is live. An error changes nothing.
fn page_stream(
    hold: &mut StreamHold,
    from: &ItemId,
    to: &ItemId,
    bytes: &Body,
    then: Then,
    window: &Window,
) -> Result<Reply, AllocError>
    ensures reply { IfOk result (λ reply. reply ≡ page_reply from.now hold.old.state) }
    ensures state { OnOk result (hold.new.state ≡ after_page window.now.items (page_of from.now to.now bytes.now then) hold.old.state) }
    ensures err { OnErr result (hold.new.state ≡ hold.old.state) }
    ensures due { OnErr result (page_refusal hold.old.state ≡ None) }
{
    match page_refusal(hold.cause(), hold.kind()) {
        Some(refused) => Ok(refused),
        None => {
            let plan = hold.page_plan(from, to, bytes, then, window)?;
            Ok(hold.commit_page(plan))
        }
    }
}

/// Ends a reliable stream whose page can't be had, where it is live.
fn fail_stream(hold: &mut StreamHold) -> Reply
    ensures reply { result ≡ failure_reply hold.old.state }
    ensures state { hold.new.state ≡ after_failure hold.old.state }
{
    match page_refusal(hold.cause(), hold.kind()) {
        Some(refused) => refused,
        None => {
            hold.fail();
            Reply::Done
        }
    }
}

/// Why a change is refused by a hold of this end and this kind: it ended, or it is no socket.
fn change_refusal(cause: Option<EndCause>, kind: HoldKind) -> Option<Reply>
    ensures { result ≡ refusal cause (is_socket kind) kind }
{
    match (cause, kind) {
        (Some(end), _) => Some(Reply::Gone(end)),
        (None, HoldKind::Socket) => None,
        (None, kind) => Some(Reply::OtherKind(kind)),
    }
}

/// How a hold that is no socket refuses a change.
fn unchanged(cause: Option<EndCause>, kind: HoldKind) -> Reply
    requires { is_socket kind ≡ false }
    ensures { refusal cause (is_socket kind) kind ≡ Some result }
{
    match change_refusal(cause, kind) {
        Some(reply) => reply,
        None => unreachable!(),
    }
}

/// Does to a live socket what its owner asks. An error changes nothing, and hands the change back.
fn change_live(hold: &mut SocketHold, change: Change) -> Result<Reply, (Change, AllocError)>
    requires { hold.old.state.ended ≡ None }
    ensures reply { IfOk result (λ reply. reply ≡ done_or_full (change_of change) hold.old.state.terms.channels) }
    ensures state { OnOk result (hold.new.state ≡ with_change (change_of change) hold.old.state) }
    ensures err { IfErr result (λ e. (e.0 ≡ change) × (hold.new.state ≡ hold.old.state)) }
    ensures due { OnErr result (done_or_full (change_of change) hold.old.state.terms.channels ≡ Done) }
    ensures free { IsLeave change → IsOk result }
{
    match change {
        Change::Push(message) => match hold.push(message) {
            Ok(()) => Ok(Reply::Done),
            Err((message, refused)) => Err((Change::Push(message), refused)),
        },
        Change::Join(channel) => match hold.join(&channel) {
            Ok(true) => Ok(Reply::Done),
            Ok(false) => Ok(Reply::Full(8)),
            Err(refused) => Err((Change::Join(channel), refused)),
        },
        Change::Leave(channel) => {
            hold.leave(&channel);
            Ok(Reply::Done)
        }
    }
}

/// Does to a socket what its owner asks, where it is live.
fn change_socket(hold: &mut SocketHold, change: Change) -> Result<Reply, (Change, AllocError)>
    ensures reply { IfOk result (λ reply. reply ≡ change_reply (change_of change) hold.old.state) }
    ensures state { OnOk result (hold.new.state ≡ after_change (change_of change) hold.old.state) }
    ensures err { IfErr result (λ e. (e.0 ≡ change) × (hold.new.state ≡ hold.old.state)) }
    ensures due { OnErr result (change_reply (change_of change) hold.old.state ≡ Done) }
    ensures free { IsLeave change → IsOk result }
{
    match change_refusal(hold.cause(), hold.kind()) {
        Some(refused) => Ok(refused),
        None => change_live(hold, change),
    }
}

/// Takes a plan out where there is one, so that nothing is moved where there is none.
fn taken<T: Drop>(plan: &mut Option<T>) -> Option<T>
    ensures { result ≡ plan.old }
{
    if plan.is_none() {
        return None;
    }
    plan.take()
}

impl HoldMachine {
    /// Plans what an item does. The hold stays as it is.
    pub fn stage(&mut self, item: &Item, window: &Window) -> Result<(), AllocError>
        ensures same { state_of self.new ≡ state_of self.old }
        ensures staged { OnOk result (IsStagedBy item.now window.now.items self.new) }
    {
        match self {
            HoldMachine::Stream { hold, plan } => stage_stream(hold, plan, item, window),
            HoldMachine::Plain { hold, plan } => stage_plain(hold, plan, item),
            HoldMachine::Response { hold, plan } => stage_response(hold, plan, item, window),
            HoldMachine::Socket { hold, plan } => stage_socket(hold, plan, item),
        }
    }

    /// Carries out what is planned, settles the marks of a hold that went on by the window behind the item, and says
    /// whether the log grew. It takes no memory.
    pub fn commit(&mut self, window: &Window) -> bool
        requires { IsReadyHold self.old }
        ensures state { state_of self.new ≡ settled_if (appends self.old) window.now.items (staged self.old) }
        ensures grew { result ≡ appends self.old }
    {
        match self {
            HoldMachine::Stream { hold, plan } => match taken(plan) {
                Some(plan) => commit_stream(hold, plan, window),
                None => false,
            },
            HoldMachine::Plain { hold, plan } => match taken(plan) {
                Some(plan) => hold.commit(plan),
                None => false,
            },
            HoldMachine::Response { hold, plan } => match taken(plan) {
                Some(plan) => commit_response(hold, plan, window),
                None => false,
            },
            HoldMachine::Socket { hold, plan } => match taken(plan) {
                Some(plan) => hold.commit(plan),
                None => false,
            },
        }
    }

    /// Gives the next batch at a moment. An error changes nothing.
    pub fn take(&mut self, now: u64) -> Result<Taken, AllocError>
        ensures gives { IfOk result (λ taken. taken ≡ taken_of now (state_of self.old)) }
        ensures leaves { OnOk result (state_of self.new ≡ after_take now (state_of self.old)) }
        ensures err { OnErr result (state_of self.new ≡ state_of self.old) }
    {
        match self {
            HoldMachine::Stream { hold, .. } => hold.take(),
            HoldMachine::Plain { hold, .. } => hold.take(),
            HoldMachine::Response { hold, .. } => hold.take(now),
            HoldMachine::Socket { hold, .. } => hold.take(),
        }
    }

    /// Brings it a page of a recovery, and answers it. An error changes nothing, and comes only where the page isn't
    /// refused.
    pub fn page(
        &mut self,
        from: &ItemId,
        to: &ItemId,
        bytes: &Body,
        then: Then,
        window: &Window,
    ) -> Result<Reply, AllocError>
        ensures reply { IfOk result (λ reply. reply ≡ page_reply from.now (state_of self.old)) }
        ensures state { OnOk result (state_of self.new ≡ after_page window.now.items (page_of from.now to.now bytes.now then) (state_of self.old)) }
        ensures err { OnErr result (state_of self.new ≡ state_of self.old) }
        ensures due { OnErr result (page_refusal (state_of self.old) ≡ None) }
    {
        match self {
            HoldMachine::Stream { hold, .. } => page_stream(hold, from, to, bytes, then, window),
            HoldMachine::Plain { hold, .. } => Ok(refused(hold.cause(), hold.kind())),
            HoldMachine::Response { hold, .. } => Ok(refused(hold.cause(), hold.kind())),
            HoldMachine::Socket { hold, .. } => Ok(refused(hold.cause(), hold.kind())),
        }
    }

    /// Tells it that a page of its recovery can't be had, and answers that. It takes no memory.
    pub fn fail(&mut self) -> Reply
        ensures reply { result ≡ failure_reply (state_of self.old) }
        ensures state { state_of self.new ≡ after_failure (state_of self.old) }
    {
        match self {
            HoldMachine::Stream { hold, .. } => fail_stream(hold),
            HoldMachine::Plain { hold, .. } => refused(hold.cause(), hold.kind()),
            HoldMachine::Response { hold, .. } => refused(hold.cause(), hold.kind()),
            HoldMachine::Socket { hold, .. } => refused(hold.cause(), hold.kind()),
        }
    }

    /// Does what an owner asks of a socket, and answers it. An error changes nothing, hands the change back, and comes only
    /// where it isn't refused. To leave a channel takes no memory.
    pub fn change(&mut self, change: Change) -> Result<Reply, (Change, AllocError)>
        ensures reply { IfOk result (λ reply. reply ≡ change_reply (change_of change) (state_of self.old)) }
        ensures state { OnOk result (state_of self.new ≡ after_change (change_of change) (state_of self.old)) }
        ensures err { IfErr result (λ e. (e.0 ≡ change) × (state_of self.new ≡ state_of self.old)) }
        ensures due { OnErr result (change_reply (change_of change) (state_of self.old) ≡ Done) }
        ensures free { IsLeave change → IsOk result }
    {
        match self {
            HoldMachine::Stream { hold, .. } => Ok(unchanged(hold.cause(), hold.kind())),
            HoldMachine::Plain { hold, .. } => Ok(unchanged(hold.cause(), hold.kind())),
            HoldMachine::Response { hold, .. } => Ok(unchanged(hold.cause(), hold.kind())),
            HoldMachine::Socket { hold, .. } => change_socket(hold, change),
        }
    }

    /// Why it ended, and none while it is live.
    pub fn cause(&self) -> Option<EndCause>
        ensures { result ≡ (state_of self.now).ended }
    {
        match self {
            HoldMachine::Stream { hold, .. } => hold.cause(),
            HoldMachine::Plain { hold, .. } => hold.cause(),
            HoldMachine::Response { hold, .. } => hold.cause(),
            HoldMachine::Socket { hold, .. } => hold.cause(),
        }
    }

    /// A copy of the pieces that wait.
    pub fn pending(&self) -> Result<Pieces, AllocError>
        ensures { IfOk result (λ pieces. pieces ≡ (state_of self.now).pending) }
    {
        match self {
            HoldMachine::Stream { hold, .. } => hold.pending(),
            HoldMachine::Plain { hold, .. } => hold.pending(),
            HoldMachine::Response { hold, .. } => hold.pending(),
            HoldMachine::Socket { hold, .. } => hold.pending(),
        }
    }

    /// The position, where it has one.
    pub fn position(&self) -> Option<&ItemId>
        ensures { option_map (λ id. id.now) result ≡ (state_of self.now).position }
    {
        match self {
            HoldMachine::Stream { hold, .. } => hold.position(),
            HoldMachine::Plain { hold, .. } => hold.position(),
            HoldMachine::Response { hold, .. } => hold.position(),
            HoldMachine::Socket { hold, .. } => hold.position(),
        }
    }
}
