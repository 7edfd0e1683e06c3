//! What makes the sessions of a server.
ghost use Rattle.std.specs.Prelude.{◌≡◌, ℕ, Option, List, IfOk, IfErr};
ghost use Rattle.gp_outside.specs.Kits.{TellsTheSame};
ghost use Rattle.gp_outside.specs.Unused.{IsUnusedLink};
ghost use Rattle.gp_hub.specs.Passes.{HubView};

use gp_hub::{HubPass, Outcome, Session};
use gp_outside::{Kit, Listen};
use std::alloc::AllocError;

/// What a session leaves: its outcome, and its devices.
#[derive(Drop)]
pub struct Finished<L, D, C> {
    /// The outcome.
    pub outcome: Outcome,
    /// The connection of its client.
    pub link: L,
    /// Its dialer and its clock, where it had them.
    pub others: Option<(D, C)>,
}

/// What a session over the devices of a kit leaves.
pub type Over<K> = Finished<
    <<K as Kit>::Listen as Listen>::Link,
    <K as Kit>::Dial,
    <K as Kit>::Clock,
>;

/// What makes the sessions of a server, for clients and for publishers.
pub trait Maker {
    type Kit: Kit + Send;

    type Client: Session<Output = Over<Self::Kit>> + Drop + Send;

    type Publisher: Session<Output = Over<Self::Kit>> + Drop + Send;

    ghost use Rattle.atomic_table.specs.Seated.{TableId};
    ghost use Rattle.gp_workers.specs.Makers.{IsGiven, IsUnused, Means};

    /// The turn of the passes that it takes.
    ghost turn: { Self → TableId };

    /// What it says of a session that ended, by the history that its pass has seen, its claim, the number of its pass,
    /// its end, its holds and its devices.
    ghost means: { Self → Means Self.Kit.Listen.Link Self.Kit.Dial Self.Kit.Clock };

    /// Makes the session of a client. Where memory is wanting it hands the pass back as it was.
    fn client(
        &self,
        kit: &mut Self::Kit,
        pass: HubPass,
        claim: u32,
        link: <<Self::Kit as Kit>::Listen as Listen>::Link,
    ) -> Result<Self::Client, (HubPass, AllocError)>
        requires pass { IsUnused (turn self.now) pass }
        requires link { IsUnusedLink (Self.Kit.Listen.Link.tells link) }
        ensures same { TellsTheSame (Self.Kit.parts kit.old) (Self.Kit.parts kit.new) }
        ensures runs { IfOk result (λ session. Self.Client.ended session → ⊥) }
        ensures gives { IfOk result (λ session. (over : _) → Self.Client.may_give session over → IsGiven (means self.now) (turn self.now) claim pass.number over) }
        ensures err { IfErr result (λ e. e.0 ≡ pass) };

    /// Makes the session of a publisher. Where memory is wanting it hands the pass back as it was.
    fn publisher(
        &self,
        kit: &mut Self::Kit,
        pass: HubPass,
        link: <<Self::Kit as Kit>::Listen as Listen>::Link,
    ) -> Result<Self::Publisher, (HubPass, AllocError)>
        requires pass { IsUnused (turn self.now) pass }
        requires link { IsUnusedLink (Self.Kit.Listen.Link.tells link) }
        ensures same { TellsTheSame (Self.Kit.parts kit.old) (Self.Kit.parts kit.new) }
        ensures runs { IfOk result (λ session. Self.Publisher.ended session → ⊥) }
        ensures gives { IfOk result (λ session. (claim : ℕ) (over : _) → Self.Publisher.may_give session over → IsGiven (means self.now) (turn self.now) claim pass.number over) }
        ensures err { IfErr result (λ e. e.0 ≡ pass) };
}
