ghost use Rattle.std.specs.Prelude.{◌≡◌, ◌≤◌, ◌++◌, ◌∷◌, [], true, All, IfOk, OnOk, MatchOption, MatchResult, length};
ghost use Rattle.gp_plain.specs.Fit.{fits};
ghost use Rattle.gp_replay.specs.Reads.{IsAllOfIt, IsFaultOf};
ghost use Rattle.gp_replay.specs.Scripts.{BeginsWith, IsOneLine};

use gp_plain::Event;
use gp_script::{LineFault, read_line};
use std::alloc::{AllocError, Global};

/// Why bytes aren't read as a script.
#[derive(Drop)]
pub enum ScriptFault {
    /// The number, from 1, of the first line that isn't in the grammar.
    Bad(u32),
    /// Memory is wanting.
    NoMemory,
}

/// The first line and what follows its line feed, where there is a line feed.
fn cut(bytes: &[u8]) -> Option<(&[u8], &[u8])>
    ensures { MatchOption result (IsOneLine bytes.now) (λ parts. BeginsWith bytes.now parts.0.now parts.1.now) }
{
    for (place, byte) in bytes.iter().enumerate() {
        if *byte == b'\n' {
            return Some((&bytes[..place], &bytes[place + 1..]));
        }
    }
    None
}

/// Adds an event at the end.
fn keep(events: &mut Vec<Event>, event: Event) -> Result<(), AllocError>
    ensures { OnOk result (events.new.items ≡ events.old.items ++ event ∷ []) }
{
    events.push(event)?;
    Ok(())
}

/// The events of a script, one a line.
pub fn read_script(alloc: Global, bytes: &[u8]) -> Result<Vec<Event>, ScriptFault>
    ensures read { MatchResult result (λ events. IsAllOfIt bytes.now events.items) (IsFaultOf bytes.now) }
    ensures fit { IfOk result (λ events. All (λ event. fits event ≡ true) events.items) }
    ensures few { IfOk result (λ events. length events.items ≤ length bytes.now) }
{
    let mut events = Vec::new(alloc);
    let mut rest = bytes;
    let mut number: u32 = 1;
    while !rest.is_empty() {
        let Some((line, next)) = cut(rest) else {
            return Err(ScriptFault::Bad(number));
        };
        let event = match read_line(alloc, line) {
            Ok(event) => event,
            Err(LineFault::Bad) => return Err(ScriptFault::Bad(number)),
            Err(LineFault::NoMemory) => return Err(ScriptFault::NoMemory),
        };
        match keep(&mut events, event) {
            Ok(()) => {}
            Err(_) => return Err(ScriptFault::NoMemory),
        }
        rest = next;
        number = number.saturating_add(1);
    }
    Ok(events)
}
