use crate::page::push_recovered;
use crate::shown::{is_last, push_progress};
use crate::watched::WatchedDial;
use gp_exchange::Exchange;
use gp_recover::Recovery;
use std::alloc::AllocError;

/// What a case runs.
#[derive(Drop)]
pub enum Run {
    Exchange(Exchange),
    Recovery(Recovery),
}

/// Adds what a poll of a recovery gave, and whether the dialer wasn't called. It says whether the recovery is over.
fn push_recovery(
    text: &mut String,
    recovery: &mut Recovery,
    dial: &mut WatchedDial,
) -> Result<bool, AllocError> {
    let before = dial.calls();
    let recovered = recovery.poll(dial);
    push_recovered(text, &recovered)?;
    if dial.calls() == before {
        text.push_str(", without a call")?;
    }
    text.push('\n')?;
    Ok(recovery.is_over())
}

impl Run {
    /// Adds what a poll gave. It says whether the run is over.
    pub fn push_poll(
        &mut self,
        text: &mut String,
        dial: &mut WatchedDial,
    ) -> Result<bool, AllocError> {
        match self {
            Run::Exchange(exchange) => {
                let progress = exchange.poll(dial);
                push_progress(text, &progress)?;
                Ok(is_last(&progress))
            }
            Run::Recovery(recovery) => push_recovery(text, recovery, dial),
        }
    }
}
