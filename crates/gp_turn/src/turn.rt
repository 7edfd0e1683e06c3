//! The turn.
ghost use Rattle.std.specs.Prelude.{◌≡◌, [], IfOk};
ghost use Rattle.gp_turn.specs.Passes.{first_pass};

use crate::kept::Kept;
use crate::pass::Pass;
use crate::steps::Law;
use crate::view::View;
use atomic_table::Table;
use std::alloc::{AllocError, Global};
use std::marker::Model;

/// A value that callers take turns to call, each by a pass of its own.
///
/// Contracts see which turn it is: a call takes a pass only with the turn that the pass was made with. A call that
/// finds the turn taken is refused, and none waits.
#[derive(Drop)]
pub struct Turn<V: Kept> {
    pub(crate) table: Table<Option<V>, View<V::Entry>, (), Law<V>, Global>,
}

impl<V: Kept> Model for Turn<V> {
    ghost use Rattle.std.specs.Prelude.{◌≡◌};
    ghost use Rattle.atomic_table.specs.Seated.{TableId, table_id_coded};

    ghost Value = { TableId };

    ghost coded = { table_id_coded };

    ghost view = { λ t. t.table.shared.table_id };

    ghost invariant = { λ t. (t.table.shared.table_id.words ≡ 1) × (t.table.shared.table_id.slots ≡ 1) };
}

impl<V: Kept> Turn<V> {
    /// A turn over a value that stands for the empty history, and its first pass. The first pass has number 0, 2^63
    /// numbers and 2^63 parts. Where memory is wanting the value is dropped.
    pub fn new(alloc: Global, value: V) -> Result<(Turn<V>, Pass<V>), AllocError>
        requires { V.stands value [] }
        ensures { IfOk result (λ made. made.1 ≡ first_pass made.0) }
    {
        let mut slots = Vec::new(alloc);
        if slots.push(Some(value)).is_err() {
            return Err(AllocError);
        }
        match Table::new(alloc, &[0], slots, &()) {
            Ok((table, seat)) => {
                let pass = Pass {
                    seat,
                    number: 0,
                    spare: 1 << 63,
                    parts: 1 << 63,
                };
                Ok((Turn { table }, pass))
            }
            Err(_) => Err(AllocError),
        }
    }
}
