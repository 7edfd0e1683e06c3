ghost use Rattle.std.specs.Prelude.{◌≡◌, All};
ghost use Rattle.gp_outside.specs.Listens.{IsAccept};
ghost use Rattle.gp_outside.specs.MemLinks.{told_link, LinkState};
ghost use Rattle.gp_outside.specs.MemListens.{accept_of, after_accept, told_listen};
ghost use Rattle.gp_outside.specs.Unused.{IsUnusedLink};

use crate::listen::{Accepted, Listen};
use crate::mem_link::MemLink;
use gp_plain::Queue;
use std::marker::Model;

/// Links in memory, in the order in which a listener gives them.
pub type Links = Queue<MemLink>;

/// A listener in memory. It gives its links in turn; with none left so many accepts aren't ready, and every later one
/// fails.
#[derive(Drop)]
pub struct MemListen {
    links: Links,
    idle: u64,
    faults: u64,
    waits: u64,
}

impl Model for MemListen {
    ghost use Rattle.std.specs.Prelude.{All};
    ghost use Rattle.gp_outside.specs.MemLinks.{LinkState, told_link};
    ghost use Rattle.gp_outside.specs.MemListens.{ListenState};
    ghost use Rattle.gp_outside.specs.Unused.{IsUnusedLink};

    ghost Value = { ListenState };

    ghost view = { λ l. record { links = l.links; idle = l.idle; faults = l.faults; waits = l.waits } };

    ghost invariant = { λ l. All (λ (link : LinkState). IsUnusedLink (told_link link)) l.links };
}

impl MemListen {
    /// A listener that gives these links, and isn't ready so often behind them. The links are unused. It takes no
    /// memory.
    pub fn new(links: Links, idle: u64) -> MemListen
        requires { All (λ (link : LinkState). IsUnusedLink (told_link link)) links }
        ensures { result ≡ record { links = links; idle = idle; faults = 0; waits = 0 } }
    {
        MemListen {
            links,
            idle,
            faults: 0,
            waits: 0,
        }
    }
}

impl Listen for MemListen {
    type Link = MemLink;

    ghost tells = { told_listen };

    fn accept(&mut self) -> Accepted<MemLink>
        ensures accepted { IsAccept told_link (told_listen self.old) (told_listen self.new) result }
        ensures answer { result ≡ accept_of self.old.links self.old.idle }
        ensures after { self.new ≡ after_accept self.old }
    {
        match self.links.take_first() {
            Some(link) => Accepted::Took(link),
            None if self.idle > 0 => {
                self.idle -= 1;
                self.waits = self.waits.saturating_add(1);
                Accepted::NotReady
            }
            None => {
                self.faults = self.faults.saturating_add(1);
                Accepted::Failed
            }
        }
    }
}
