//! What a request is held open for, by the instruction of its answer.
ghost use Rattle.std.specs.Prelude.{◌≡◌, ◌∷◌, [], IfOk};
ghost use Rattle.gp_instruct.specs.Spec.{SpecLaw, names_of, only_prev, spec, stream_spec};

use crate::instruct::{Instruct, Mode, Sub, Subs};
use gp_plain::{Body, HoldSpec, ItemId, List, Name, Names};
use std::alloc::{AllocError, Global};

/// One name alone.
fn one(alloc: Global, name: Name) -> Result<Names, AllocError>
    ensures { IfOk result (λ names. names ≡ name ∷ []) }
{
    let mut names = Vec::with_capacity(alloc, 1)?;
    names.push(name)?;
    Ok(List::from_vec(names))
}

/// The names of channels.
fn names_of(alloc: Global, subs: Subs) -> Result<Names, AllocError>
    ensures { IfOk result (λ names. names ≡ names_of subs) }
{
    let mut names = Vec::with_capacity(alloc, subs.len())?;
    for sub in subs.into_vec() {
        names.push(sub.name)?;
    }
    Ok(List::from_vec(names))
}

/// The names of channels, and the previous id where there is one channel alone.
fn split(alloc: Global, mut subs: Subs) -> Result<(Names, Option<ItemId>), AllocError>
    ensures names { IfOk result (λ r. r.0 ≡ names_of subs) }
    ensures prev { IfOk result (λ r. r.1 ≡ only_prev subs) }
{
    if subs.len() != 1 {
        return Ok((names_of(alloc, subs)?, None));
    }
    match subs.take_first() {
        Some(Sub { name, prev }) => Ok((one(alloc, name)?, prev)),
        None => unreachable!(),
    }
}

fn stream_spec(alloc: Global, subs: Subs, opening: Body, link: bool) -> Result<HoldSpec, AllocError>
    ensures { IfOk result (λ s. s ≡ stream_spec opening subs (only_prev subs) link) }
{
    let (mut channels, prev) = split(alloc, subs)?;
    let Some(prev) = prev else {
        return Ok(HoldSpec::Plain { opening, channels });
    };
    match channels.take_first() {
        Some(channel) => Ok(HoldSpec::Stream {
            opening,
            channel,
            prev,
            link,
        }),
        None => Ok(HoldSpec::Plain { opening, channels }),
    }
}

fn response_spec(
    alloc: Global,
    subs: Subs,
    deadline: u64,
    again: bool,
) -> Result<HoldSpec, AllocError>
    ensures { IfOk result (λ s. s ≡ HoldSpec.Response (names_of subs) (only_prev subs) deadline again) }
{
    let (channels, prev) = split(alloc, subs)?;
    Ok(HoldSpec::Response {
        channels,
        prev,
        deadline,
        again,
    })
}

impl Instruct {
    /// What the request is held open for, or None where the instruction asks for no hold. `opening` begins a stream; `now` is a
    /// moment in seconds, and `again` says that the request was repeated. Names and ids are moved. What an instruction that was
    /// read asks for, with an opening of at most 262,144 bytes, is within the limits of an Attach.
    pub fn into_spec(
        self,
        alloc: Global,
        opening: Body,
        now: u64,
        again: bool,
    ) -> Result<Option<HoldSpec>, AllocError>
        ensures spec { IfOk result (λ held. held ≡ spec self opening now again) }
    {
        let Some(mode) = self.mode else {
            return Ok(None);
        };
        let held = match mode {
            Mode::Stream => stream_spec(alloc, self.subs, opening, self.link.is_some())?,
            Mode::Response => {
                let deadline = now.saturating_add(u64::from(self.timeout));
                response_spec(alloc, self.subs, deadline, again)?
            }
        };
        Ok(Some(held))
    }
}

/// The law of what is held. A hold that a read instruction asks for, with an opening of at most 262,144 bytes, is one that is
/// built and within the limits of an Attach.
pub fn spec_law()
    ensures { SpecLaw }
{}
