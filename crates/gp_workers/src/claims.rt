//! The claims of connections: the numbers from 0 on, each given once.
ghost use Rattle.std.specs.Prelude.{ℕ, ◌≡◌, ◌+◌, ◌-◌, ◌<◌, ◌≤◌, [], ◌∷◌, ◌++◌, IfOk, length, max};
ghost use Rattle.gp_workers.specs.Claims.{IsCounted, all_parts, below, both_of, given_off, looked, newcomer, one_share, smaller, spent, times, took};

use crate::drawn::Drawn;
use atomic_table::{Join, Play, Seat, Split, Table, TableRule};
use std::alloc::{AllocError, Global};
use std::marker::Model;

struct Law;

impl TableRule<u64, Drawn, ()> for Law {
    ghost holds = { λ _ s. IsCounted s };

    ghost first = { λ _. newcomer };
}

struct Takes;

impl Play<u64, Drawn> for Takes {
    ghost then = { took };
}

struct Looks;

impl Play<u64, Drawn> for Looks {
    ghost then = { looked };
}

struct Cut;

impl Split<Drawn> for Cut {
    ghost left = { smaller };

    ghost right = { given_off };
}

struct Glue;

impl Join<Drawn> for Glue {
    ghost both = { both_of };

    ghost spent = { spent };
}

/// The next claim. Threads share it by reference, each with a claimer of its own.
#[derive(Drop)]
pub struct Claims {
    table: Table<u64, Drawn, (), Law, Global>,
}

impl Model for Claims {
    ghost use Rattle.std.specs.Prelude.{◌≡◌};
    ghost use Rattle.atomic_table.specs.Seated.{TableId, table_id_coded};

    ghost Value = { TableId };

    ghost coded = { table_id_coded };

    ghost view = { λ c. c.table.shared.table_id };

    ghost invariant = { λ c. (c.table.shared.table_id.words ≡ 1) × (c.table.shared.table_id.slots ≡ 0) };
}

/// The right to take claims. Contracts see the claims that it took.
#[derive(Drop)]
pub struct Claimer {
    seat: Seat<u64, Drawn>,
}

impl Model for Claimer {
    ghost use Rattle.std.specs.Prelude.{◌≡◌, []};
    ghost use Rattle.gp_workers.specs.Claims.{ClaimView, view_of};

    ghost Value = { ClaimView };

    ghost view = { λ c. view_of c.seat.table_id c.seat.me.0 };

    ghost invariant = { λ c. c.seat.me.1 ≡ [] };
}

impl Claims {
    /// Claims of which none was taken, and the claimer that has all parts.
    pub fn new(alloc: Global) -> Result<(Claims, Claimer), AllocError>
        ensures { IfOk result (λ made. made.1 ≡ record { table = made.0; parts = all_parts; taken = []; note = 0 }) }
    {
        match Table::new(alloc, &[0], Vec::new(alloc), &()) {
            Ok((table, seat)) => Ok((Claims { table }, Claimer { seat })),
            Err(_) => Err(AllocError),
        }
    }

    /// Another claimer, with a share of the parts.
    pub fn split(&self, from: &mut Claimer) -> Claimer
        requires table { from.old.table ≡ self.now }
        requires parts { length from.old.taken + one_share ≤ from.old.parts }
        ensures kept { from.new ≡ record from.old { parts = from.old.parts - one_share } }
        ensures given { result ≡ record { table = from.old.table; parts = one_share; taken = []; note = from.old.note } }
    {
        Claimer {
            seat: self.table.shared.split_seat::<Cut>(&mut from.seat),
        }
    }

    /// Joins a claimer into another, which then has what both took.
    pub fn join(&self, gone: Claimer, into: &mut Claimer)
        requires table { (into.old.table ≡ self.now) × (gone.table ≡ self.now) }
        ensures { into.new ≡ record { table = into.old.table; parts = into.old.parts + gone.parts; taken = into.old.taken ++ gone.taken; note = max into.old.note gone.note } }
    {
        let Claimer { seat } = gone;
        self.table.shared.join_seat::<Glue>(&mut into.seat, seat);
    }

    /// Takes the next claim, by one step.
    pub fn take(&self, by: &mut Claimer) -> u64
        requires table { by.old.table ≡ self.now }
        requires parts { length by.old.taken < by.old.parts }
        ensures later { by.old.note ≤ result }
        ensures taken { by.new ≡ record by.old { taken = by.old.taken ++ result ∷ []; note = result + 1 } }
    {
        self.table.shared.fetch_add::<Takes>(&mut by.seat, 0, 1)
    }

    /// The next claim, which it doesn't take. Who has all parts then knows that the claims taken are those below it,
    /// each once.
    pub fn next(&self, by: &mut Claimer) -> u64
        requires table { by.old.table ≡ self.now }
        ensures later { by.old.note ≤ result }
        ensures noted { by.new ≡ record by.old { note = result } }
        ensures all { by.old.parts ≡ all_parts → (x : ℕ) → times x by.old.taken ≡ below x result }
    {
        self.table.shared.load::<Looks>(&mut by.seat, 0)
    }
}
