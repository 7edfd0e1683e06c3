ghost use Rattle.std.specs.Prelude.{◌≡◌, [], ◌∷◌, ◌++◌, All, OnErr, OnOk, option_map, refl, slice_get};
ghost use Rattle.gp_outside.specs.MemKits.{parts_of};
ghost use Rattle.gp_outside.specs.MemListens.{told_listen};
ghost use Rattle.gp_outside.specs.MemWorlds.{IsUnusedMemKit, after_kit, kit_of, world_parts};
ghost use Rattle.gp_outside.specs.Worlds.{IsKitMade, IsUnusedKit, with_kit};

use crate::device::{KitMade, World};
use crate::file::MemFiles;
use crate::mem_clock::MemClock;
use crate::mem_kit::MemKit;
use crate::sink::MemOut;
use gp_plain::{List, Queue};
use std::alloc::{AllocError, Global};
use std::marker::Model;

/// Kits in memory, in the order in which a world gives them.
pub type Kits = Queue<MemKit>;

/// A world in memory. It gives its kits in turn; with none left the making of one fails. It keeps the kits that are
/// handed back to it.
#[derive(Drop)]
pub struct MemWorld {
    files: MemFiles,
    out: MemOut,
    clock: MemClock,
    kits: Kits,
    handed: List<MemKit>,
    faults: u64,
}

impl Model for MemWorld {
    ghost use Rattle.std.specs.Prelude.{All};
    ghost use Rattle.gp_outside.specs.MemWorlds.{IsUnusedMemKit, WorldState};

    ghost Value = { WorldState };

    ghost view = { λ w. record { files = w.files; out = w.out; clock = w.clock; kits = w.kits; handed = w.handed; faults = w.faults } };

    ghost invariant = { λ w. All IsUnusedMemKit w.kits };
}

impl MemWorld {
    /// The world of these devices. The kits are unused. It takes no memory.
    pub fn new(alloc: Global, files: MemFiles, out: MemOut, clock: MemClock, kits: Kits) -> MemWorld
        requires { All IsUnusedMemKit kits }
        ensures { result ≡ record { files = files; out = out; clock = clock; kits = kits; handed = []; faults = 0 } }
    {
        MemWorld {
            files,
            out,
            clock,
            kits,
            handed: List::new(alloc),
            faults: 0,
        }
    }

    /// The kit that was handed back at a place, counted from 0.
    pub fn ended(&self, place: usize) -> Option<&MemKit>
        ensures { option_map (λ x. x.now) result ≡ slice_get self.now.handed place }
    {
        self.handed.at(place)
    }
}

impl World for MemWorld {
    type Files = MemFiles;

    type Out = MemOut;

    type Clock = MemClock;

    type Kit = MemKit;

    ghost parts = { world_parts };

    ghost with_files = { λ w f. record w { files = f } };

    ghost with_out = { λ w o. record w { out = o } };

    ghost with_clock = { λ w c. record w { clock = c } };

    fn files(&mut self) -> &mut MemFiles {
        &mut self.files
    }

    fn out(&mut self) -> &mut MemOut {
        &mut self.out
    }

    fn clock(&mut self) -> &mut MemClock {
        &mut self.clock
    }

    fn kit(&mut self, _number: u32, _client: u16, _publish: u16) -> KitMade<MemKit>
        ensures made { IsKitMade (λ kit. IsUnusedKit told_listen (parts_of kit)) (world_parts self.old) (world_parts self.new) result }
        ensures next { result ≡ kit_of self.old.kits }
        ensures after { self.new ≡ after_kit self.old }
    {
        match self.kits.take_first() {
            Some(kit) => KitMade::Made(kit),
            None => {
                self.faults = self.faults.saturating_add(1);
                KitMade::Failed
            }
        }
    }

    fn over(&mut self, kit: MemKit) -> Result<(), AllocError>
        ensures ok { OnOk result (world_parts self.new ≡ with_kit (world_parts self.old) kit) }
        ensures err { OnErr result (world_parts self.new ≡ world_parts self.old) }
        ensures taken { OnOk result (self.new ≡ record self.old { handed = self.old.handed ++ kit ∷ [] }) }
        ensures left { OnErr result (self.new ≡ self.old) }
    {
        match self.handed.push(kit) {
            Ok(()) => Ok(()),
            Err((_, refused)) => Err(refused),
        }
    }

    ghost files_back = { λ w f. refl };

    ghost out_back = { λ w o. refl };

    ghost clock_back = { λ w c. refl };
}
