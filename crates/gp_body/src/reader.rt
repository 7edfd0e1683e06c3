ghost use Rattle.std.specs.Prelude.{◌≡◌, [], Err, List, Some, ℕ};
ghost use Rattle.gp_body.specs.declared.fed.FedFault.{FedFault};
ghost use Rattle.gp_body.specs.declared.plan.BodyPlan.{BodyPlan};
ghost use Rattle.gp_body.specs.Steps.{is_end};
ghost use Rattle.gp_body.specs.declared.fed.FedAllFault.TheVariants.{Body};
ghost use Rattle.gp_body.specs.Alls.{IsAllFed, IsAllFedAt};
ghost use Rattle.gp_body.specs.Wholes.{reading_of, IsFed, IsFedAt, IsFinished, IsFinishedAt};

use crate::fed::{Fed, FedAll, FedAllFault, FedFault};
use crate::plan::BodyPlan;
use crate::reading::Reading;
use std::marker::Model;

/// Reads a body that comes in pieces.
///
/// Contracts see how far it was read. A reader that was made for a plan and a limit, and that has taken a text since,
/// is `reading_of plan limit text`; what that says of the text in the words of the grammar is `body_law`.
#[derive(Drop)]
pub struct BodyReader {
    reading: Reading,
}

impl Model for BodyReader {
    ghost use Rattle.gp_body.specs.declared.reading.Reading.{Reading};

    ghost Value = { Reading };

    ghost use Rattle.gp_body.specs.Readings.{IsSound};

    ghost view = { λ r. r.reading };

    ghost invariant = { λ r. IsSound r.reading };
}

impl BodyReader {
    /// A reader of a body with this plan, which may have at most so many bytes of content. It takes no memory.
    pub fn new(plan: BodyPlan, limit: u64) -> BodyReader
        ensures { result ≡ reading_of plan limit [] }
    {
        BodyReader {
            reading: Reading::opening(plan, limit),
        }
    }

    /// Takes bytes up to the end of one run of content, which is `bytes[from..to]`, or all where there is none. Where
    /// there are bytes and the body hasn't ended, it takes at least one. Bytes behind the body's end aren't taken. It
    /// takes no memory, and copies no byte.
    ///
    /// `TooLong` comes where the planned length is above the limit, or at the byte of content behind the limit, and
    /// `Chunk` at the byte with which the grammar of chunks can't go on. After a refusal the reader answers the same
    /// refusal again.
    pub fn feed(&mut self, bytes: &[u8]) -> Result<Fed, FedFault>
        ensures fed { IsFed self.old bytes.now result self.new }
        ensures again { (fault : FedFault) → self.old.refused ≡ Some fault → (result ≡ Err fault) × (self.new ≡ self.old) }
        ensures at { (plan : BodyPlan) (limit : ℕ) (text : List ℕ) → self.old ≡ reading_of plan limit text → IsFedAt plan limit text bytes.now result self.new }
    {
        self.reading.feed(bytes)
    }

    /// Takes all bytes, or those up to the body's end, and adds their content to a `Vec`, each byte copied once. Bytes
    /// behind the body's end aren't taken.
    ///
    /// It makes room for as many bytes as come before it takes the first, so want of memory changes nothing. A refusal
    /// is as `feed` has it, and the content before it was added.
    pub fn feed_all(&mut self, bytes: &[u8], into: &mut Vec<u8>) -> Result<FedAll, FedAllFault>
        ensures fed { IsAllFed self.old bytes.now result self.new into.old.items into.new.items }
        ensures again { (fault : FedFault) → self.old.refused ≡ Some fault → (result ≡ Err (Body fault)) × (self.new ≡ self.old) × (into.new.items ≡ into.old.items) }
        ensures at { (plan : BodyPlan) (limit : ℕ) (text : List ℕ) → self.old ≡ reading_of plan limit text → IsAllFedAt plan limit text bytes.now result self.new into.old.items into.new.items }
    {
        self.reading.feed_all(bytes, into)
    }

    /// Says that the input ended. It is Ok exactly for a body that has ended, or that goes on to the close; the body
    /// has then ended. Else it is `Cut`, or the refusal that was answered before. It takes no memory.
    pub fn finish(&mut self) -> Result<(), FedFault>
        ensures finished { IsFinished self.old result self.new }
        ensures again { (fault : FedFault) → self.old.refused ≡ Some fault → (result ≡ Err fault) × (self.new ≡ self.old) }
        ensures at { (plan : BodyPlan) (limit : ℕ) (text : List ℕ) → self.old ≡ reading_of plan limit text → IsFinishedAt plan limit text result }
    {
        self.reading.finish()
    }

    /// Whether the body has ended.
    pub fn is_end(&self) -> bool
        ensures { result ≡ is_end self.now.state }
    {
        self.reading.state.is_end()
    }

    /// Why the body was refused, if it was.
    pub fn refusal(&self) -> Option<FedFault>
        ensures { result ≡ self.now.refused }
    {
        self.reading.refused
    }
}
