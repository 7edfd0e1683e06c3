ghost use Rattle.std.specs.Prelude.{◌≡◌, None, true, length};
ghost use Rattle.gp_body.specs.Readings.{IsSound, IsSkipped, IsTaken};
ghost use Rattle.gp_body.specs.Wholes.{opening, first_refusal, IsFed, IsFinished};

use crate::fed::{Fed, FedFault};
use crate::plan::BodyPlan;
use crate::state::State;

/// How far a body was read.
#[derive(Drop)]
pub(crate) struct Reading {
    /// What is waited for.
    pub state: State,
    /// Why the body was refused, if it was.
    pub refused: Option<FedFault>,
    /// The most bytes of content.
    pub limit: u64,
    /// How many bytes were taken. It stands still at its type's end.
    pub place: u64,
    /// How many of them are content.
    pub given: u64,
}

/// A planned length above the limit is refused.
fn first_refusal(plan: BodyPlan, limit: u64) -> Option<FedFault>
    ensures { result ≡ first_refusal plan limit }
{
    match plan {
        BodyPlan::Length(length) if length > limit => Some(FedFault::TooLong(limit)),
        _ => None,
    }
}

impl Reading {
    /// A body of which nothing has come.
    pub fn opening(plan: BodyPlan, limit: u64) -> Reading
        ensures opening { result ≡ opening plan limit }
        ensures sound { IsSound result }
    {
        Reading {
            state: State::first(plan),
            refused: first_refusal(plan, limit),
            limit,
            place: 0,
            given: 0,
        }
    }

    /// Takes bytes up to the end of one run of content, or all where there is none.
    pub fn feed(&mut self, bytes: &[u8]) -> Result<Fed, FedFault>
        requires { IsSound self.old }
        ensures fed { IsFed self.old bytes.now result self.new }
        ensures sound { IsSound self.new }
    {
        if let Some(fault) = self.refused {
            return Err(fault);
        }
        let from = self.skip(bytes)?;
        let run = self.take_content(&bytes[from..])?;
        Ok(Fed {
            taken: from + run,
            from,
            to: from + run,
            end: self.state.is_end(),
        })
    }

    /// Takes the bytes before the next byte of content, or all where there is none. It stops at the body's end.
    pub fn skip(&mut self, bytes: &[u8]) -> Result<usize, FedFault>
        requires sound { IsSound self.old }
        requires open { self.old.refused ≡ None }
        ensures read { IsSkipped self.old bytes.now result self.new }
        ensures sound { IsSound self.new }
    {
        for (taken, byte) in bytes.iter().enumerate() {
            if !self.state.is_framing() {
                return Ok(taken);
            }
            let Some(state) = self.state.after(*byte) else {
                let fault = FedFault::Chunk(self.place);
                self.refused = Some(fault);
                return Err(fault);
            };
            self.state = state;
            self.place = self.place.saturating_add(1);
        }
        Ok(bytes.len())
    }

    /// Takes the content at the front of the bytes, as far as the limit allows, and says how many bytes that is.
    pub fn take_content(&mut self, bytes: &[u8]) -> Result<usize, FedFault>
        requires sound { IsSound self.old }
        requires open { self.old.refused ≡ None }
        ensures read { IsTaken self.old bytes.now result self.new }
        ensures sound { IsSound self.new }
    {
        let run = self.state.content_len(bytes.len());
        let room = self.limit - self.given;
        if run > 0 && room == 0 {
            let fault = FedFault::TooLong(self.limit);
            self.refused = Some(fault);
            return Err(fault);
        }
        let run = run.min(room as usize);
        self.state = self.state.behind(run);
        self.place = self.place.saturating_add(run as u64);
        self.given += run as u64;
        Ok(run)
    }

    /// Says that the input ended.
    pub fn finish(&mut self) -> Result<(), FedFault>
        requires { IsSound self.old }
        ensures finished { IsFinished self.old result self.new }
        ensures sound { IsSound self.new }
    {
        match (self.refused, self.state) {
            (Some(fault), _) => Err(fault),
            (None, State::Left(0)) => Ok(()),
            (None, State::Stream) => {
                self.state = State::Left(0);
                Ok(())
            }
            _ => {
                let fault = FedFault::Cut(self.given);
                self.refused = Some(fault);
                Err(fault)
            }
        }
    }
}
