//! All that the program reaches of the system.
ghost use Rattle.std.specs.Prelude.{◌≡◌, None, IfOk, refl};
ghost use Rattle.gp_outside.specs.Worlds.{IsUnusedKit};

use crate::clock::NetClock;
use crate::files::NetFiles;
use crate::kit::NetKit;
use crate::out::NetOut;
use crate::ports::Ports;
use gp_outside::{KitMade, World};
use std::alloc::{AllocError, Global};
use std::fs::Files;
use std::io::{self, Write};
use std::net::Net;
use std::time;

/// The files, a writer, the clock and the network of the system. Its first kit opens the two ports, and all others
/// listen on the same two. It doesn't tell which kits were handed back to it: it lets them go.
#[derive(Drop)]
pub struct NetWorld<R: Files + Net + time::Clock + Copy + Drop, W: Write + Drop> {
    alloc: Global,
    system: R,
    files: NetFiles<R>,
    out: NetOut<W>,
    clock: NetClock<R>,
    ports: Option<Ports>,
    faults: u64,
}

impl<R: Files + Net + time::Clock + Copy + Drop, W: Write + Drop> NetWorld<R, W> {
    /// The system, with a writer as its sink. Nothing was counted yet.
    pub fn new(alloc: Global, system: R, out: W) -> NetWorld<R, W>
        ensures devices { (result.files.faults ≡ 0) × (result.out.faults ≡ 0) × (result.clock ≡ record { calls = 0; last = 0 }) }
        ensures quiet { result.faults ≡ 0 }
    {
        NetWorld {
            alloc,
            system,
            files: NetFiles::new(alloc, system),
            out: NetOut::new(out),
            clock: NetClock::new(system),
            ports: None,
            faults: 0,
        }
    }

    /// The kit of a worker, over the two ports. They are opened where they aren't yet.
    fn hire(&mut self, number: u32, client: u16, publish: u16) -> io::Result<NetKit<R>>
        ensures made { IfOk result (λ kit. IsUnusedKit (λ l. l) kit) }
        ensures same { self.new ≡ record self.old { ports = self.new.ports } }
    {
        let ports = match self.ports.take() {
            Some(ports) => ports,
            None => Ports::open(self.alloc, &self.system, client, publish)?,
        };
        let kit = ports.kit(self.alloc, self.system, number);
        self.ports = Some(ports);
        kit
    }
}

impl<R: Files + Net + time::Clock + Copy + Drop + Send, W: Write + Drop> World for NetWorld<R, W> {
    type Files = NetFiles<R>;

    type Out = NetOut<W>;

    type Clock = NetClock<R>;

    type Kit = NetKit<R>;

    ghost parts = { λ w. record { files = w.files; out = w.out; clock = w.clock; faults = w.faults; handed = None } };

    ghost with_files = { λ w f. record w { files = f } };

    ghost with_out = { λ w o. record w { out = o } };

    ghost with_clock = { λ w c. record w { clock = c } };

    fn files(&mut self) -> &mut NetFiles<R> {
        &mut self.files
    }

    fn out(&mut self) -> &mut NetOut<W> {
        &mut self.out
    }

    fn clock(&mut self) -> &mut NetClock<R> {
        &mut self.clock
    }

    fn kit(&mut self, number: u32, client: u16, publish: u16) -> KitMade<NetKit<R>> {
        match self.hire(number, client, publish) {
            Ok(kit) => KitMade::Made(kit),
            Err(error) if error.kind() == io::ErrorKind::OutOfMemory => KitMade::NoMemory,
            Err(_) => {
                self.faults = self.faults.saturating_add(1);
                KitMade::Failed
            }
        }
    }

    fn over(&mut self, kit: NetKit<R>) -> Result<(), AllocError> {
        drop(kit);
        Ok(())
    }

    ghost files_back = { λ w f. refl };

    ghost out_back = { λ w o. refl };

    ghost clock_back = { λ w c. refl };
}
