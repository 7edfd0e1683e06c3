ghost use Rattle.std.specs.Prelude.{ℕ, ◌≡◌, ◌<◌, ◌≤◌, List, OnErr, OnOk, Option, Some, length};
ghost use Rattle.std.specs.Borrow.{Lends, sem};
ghost use Rattle.gp_outside.specs.Devices.{FailsWith, IsReadOf, IsWrite};
ghost use Rattle.gp_outside.specs.Worlds.{IsKitMade, IsUnusedKit, with_kit};

use crate::clock::Clock;
use crate::kit::Kit;
use gp_plain::Body;
use std::alloc::AllocError;

/// What a read of a file gave.
#[derive(Drop)]
pub enum FileRead {
    /// The whole content.
    Took(Body),
    /// The content has more than 16,777,216 bytes.
    TooLong,
    /// A fault came.
    Failed,
    /// Memory is wanting.
    NoMemory,
}

/// Files. The content of one is told by its path, or isn't told.
pub trait Files: Drop {
    ghost content: { Self → List ℕ → Option (List ℕ) };

    /// How many faults there were. It never falls, and stands still at 2^64 - 1.
    ghost faults: { Self → ℕ };

    /// Reads a whole file of at most 16,777,216 bytes. It leaves what is told of the files as it was, and the count of
    /// faults too where it doesn't fail.
    fn read(&mut self, path: &str) -> FileRead
        ensures same { content self.new ≡ content self.old }
        ensures later { faults self.old ≤ faults self.new }
        ensures faulted { FailsWith result (faults self.old) (faults self.new) }
        ensures told { (bytes : List ℕ) → content self.old path.now ≡ Some bytes → IsReadOf bytes result };
}

/// What a write did.
#[derive(Clone, Copy, Drop, Debug, PartialEq)]
pub enum Written {
    /// So many bytes were written, the first of those that were handed in.
    Took(usize),
    /// A fault came, and no byte was written.
    Failed,
}

/// A sink. The bytes that were written are told, or aren't told.
pub trait Out: Drop {
    ghost use Rattle.gp_outside.specs.Devices.{SinkTells};

    ghost tells: { Self → SinkTells };

    /// Writes the first of some bytes, at least one.
    fn write(&mut self, from: &[u8]) -> Written
        requires { 0 < length from.now }
        ensures later { (tells self.old).faults ≤ (tells self.new).faults }
        ensures moved { IsWrite (tells self.old) (tells self.new) from.now result };
}

/// What the making of a kit did.
#[derive(Drop)]
pub enum KitMade<K> {
    /// A kit that nothing was done with yet.
    Made(K),
    /// A fault came.
    Failed,
    /// Memory is wanting.
    NoMemory,
}

/// What lends files, a sink and a clock, one at a time, makes the kits of workers, and takes them back. What was lent
/// is afterwards as its borrower left it, and the rest is as it was.
pub trait World {
    type Files: Files;

    type Out: Out;

    type Clock: Clock;

    type Kit: Kit + Send;

    ghost use Rattle.gp_outside.specs.Worlds.{WorldParts};

    ghost parts: { Self → WorldParts Self.Files Self.Out Self.Clock Self.Kit };

    ghost with_files: { Self → Self.Files → Self };

    ghost with_out: { Self → Self.Out → Self };

    ghost with_clock: { Self → Self.Clock → Self };

    /// Lends the files.
    fn files(&mut self) -> &mut Self::Files
        ensures* lent { sem 𝓛 (Lends Self.row Self.Files.row self.entry result (with_files self.old)) }
        ensures value { result.now ≡ (parts self.old).files };

    /// Lends the sink.
    fn out(&mut self) -> &mut Self::Out
        ensures* lent { sem 𝓛 (Lends Self.row Self.Out.row self.entry result (with_out self.old)) }
        ensures value { result.now ≡ (parts self.old).out };

    /// Lends the clock.
    fn clock(&mut self) -> &mut Self::Clock
        ensures* lent { sem 𝓛 (Lends Self.row Self.Clock.row self.entry result (with_clock self.old)) }
        ensures value { result.now ≡ (parts self.old).clock };

    /// Makes the kit of the worker with this number, counted from 0. Its listeners listen on the two ports.
    fn kit(&mut self, number: u32, client: u16, publish: u16) -> KitMade<Self::Kit>
        ensures { IsKitMade (λ kit. IsUnusedKit Self.Kit.Listen.tells (Self.Kit.parts kit)) (parts self.old) (parts self.new) result };

    /// Takes a kit back. Where memory is wanting it takes nothing up.
    fn over(&mut self, kit: Self::Kit) -> Result<(), AllocError>
        ensures ok { OnOk result (parts self.new ≡ with_kit (parts self.old) kit) }
        ensures err { OnErr result (parts self.new ≡ parts self.old) };

    ghost files_back: { (world : Self) (files : Self.Files) → parts (with_files world files) ≡ record (parts world) { files = files } };

    ghost out_back: { (world : Self) (out : Self.Out) → parts (with_out world out) ≡ record (parts world) { out = out } };

    ghost clock_back: { (world : Self) (clock : Self.Clock) → parts (with_clock world clock) ≡ record (parts world) { clock = clock } };
}
