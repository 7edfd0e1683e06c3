ghost use Rattle.std.specs.Prelude.{◌≡◌, ◌≤◌, ℕ, None, IfOk, OnOk, OnErr, All, count_by, length, map, IfErr, IsOk};
ghost use Rattle.gp_plain.specs.History.{page_of};
ghost use Rattle.gp_plain.specs.Holds.{failure_reply, page_refusal, page_reply, change_reply};
ghost use Rattle.gp_registry.specs.Keeps.{after_failure_kept, after_page_kept, after_take_kept, taken_kept, after_change_kept};
ghost use Rattle.gp_registry.specs.Stages.{HasRoom, IsStaged, appends, committed, kept_hold, number_of};
ghost use Rattle.gp_registry.specs.Changes.{IsLeave, change_of};
ghost use Rattle.gp_plain.specs.declared.reply.Reply.TheVariants.{Done};

use crate::change::Change;
use crate::machine::HoldMachine;
use gp_plain::{Body, Item, ItemId, Reply, Taken, Then};
use gp_window::Window;
use std::alloc::AllocError;

/// A kept hold.
#[derive(Drop)]
pub struct Hold {
    /// Its number.
    pub number: u64,
    /// Who attached it.
    pub owner: u64,
    /// What it does. It is boxed, so that a release moves little of the holds behind it.
    pub machine: Box<HoldMachine>,
}

impl Hold {
    /// Its machine.
    pub fn machine(&self) -> &HoldMachine
        ensures { result.now ≡ self.now.machine.value }
    {
        &self.machine
    }

    /// Plans what an item does. The hold stays as it is.
    pub fn stage(&mut self, item: &Item, window: &Window) -> Result<(), AllocError>
        ensures same { kept_hold self.new ≡ kept_hold self.old }
        ensures staged { OnOk result (IsStaged item.now window.now.items self.new) }
    {
        self.machine.stage(item, window)
    }

    /// Carries out what is planned, and says whether the log grew. It takes no memory.
    pub fn commit(&mut self, window: &Window) -> bool
        requires { HasRoom self.old }
        ensures kept { kept_hold self.new ≡ committed window.now.items self.old }
        ensures grew { result ≡ appends self.old.machine.value }
    {
        self.machine.commit(window)
    }

    /// Gives the next batch at a moment. An error changes nothing.
    pub fn take(&mut self, now: u64) -> Result<Taken, AllocError>
        ensures gives { IfOk result (λ taken. taken ≡ taken_kept now (kept_hold self.old)) }
        ensures leaves { OnOk result (kept_hold self.new ≡ after_take_kept now (kept_hold self.old)) }
        ensures err { OnErr result (kept_hold self.new ≡ kept_hold self.old) }
    {
        self.machine.take(now)
    }

    /// Brings it a page of a recovery, and answers it. An error changes nothing, and comes only where the page isn't
    /// refused.
    pub fn page(
        &mut self,
        from: &ItemId,
        to: &ItemId,
        bytes: &Body,
        then: Then,
        window: &Window,
    ) -> Result<Reply, AllocError>
        ensures reply { IfOk result (λ reply. reply ≡ page_reply from.now (kept_hold self.old).state) }
        ensures leaves { OnOk result (kept_hold self.new ≡ after_page_kept window.now.items (page_of from.now to.now bytes.now then) (kept_hold self.old)) }
        ensures err { OnErr result (kept_hold self.new ≡ kept_hold self.old) }
        ensures due { OnErr result (page_refusal (kept_hold self.old).state ≡ None) }
    {
        self.machine.page(from, to, bytes, then, window)
    }

    /// Does what an owner asks of a socket, and answers it. An error changes nothing, hands the change back, and comes only
    /// where it isn't refused.
    pub fn change(&mut self, change: Change) -> Result<Reply, (Change, AllocError)>
        ensures reply { IfOk result (λ reply. reply ≡ change_reply (change_of change) (kept_hold self.old).state) }
        ensures leaves { OnOk result (kept_hold self.new ≡ after_change_kept (change_of change) (kept_hold self.old)) }
        ensures err { IfErr result (λ e. (e.0 ≡ change) × (kept_hold self.new ≡ kept_hold self.old)) }
        ensures due { OnErr result (change_reply (change_of change) (kept_hold self.old).state ≡ Done) }
        ensures free { IsLeave change → IsOk result }
    {
        self.machine.change(change)
    }

    /// Tells it that a page of its recovery can't be had, and answers that. It takes no memory.
    pub fn fail(&mut self) -> Reply
        ensures reply { result ≡ failure_reply (kept_hold self.old).state }
        ensures leaves { kept_hold self.new ≡ after_failure_kept (kept_hold self.old) }
    {
        self.machine.fail()
    }
}

/// Plans what an item does to each hold. The holds stay as they are.
pub fn stage_all(holds: &mut [Hold], item: &Item, window: &Window) -> Result<(), AllocError>
    ensures same { map kept_hold holds.new ≡ map kept_hold holds.old }
    ensures staged { OnOk result (All (IsStaged item.now window.now.items) holds.new) }
{
    for hold in holds.iter_mut() {
        hold.stage(item, window)?;
    }
    Ok(())
}

/// Carries out in each hold what is planned, and says how many logs grew. It takes no memory.
pub fn commit_all(holds: &mut [Hold], window: &Window) -> u32
    requires room { All HasRoom holds.old }
    requires few { length holds.old ≤ 4096 }
    ensures kept { map kept_hold holds.new ≡ map (committed window.now.items) holds.old }
    ensures grew { result ≡ count_by (λ hold. appends hold.machine.value) holds.old }
{
    let mut grew = 0;
    for hold in holds.iter_mut() {
        if hold.commit(window) {
            grew += 1;
        }
    }
    grew
}
