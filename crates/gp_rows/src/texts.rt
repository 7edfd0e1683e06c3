use crate::shown::{add_event, add_piece, add_reply, push_bytes};
use gp_plain::{Body, EndCause, Event, HoldKind, HoldReport, Piece, Reply};
use gp_script::{write_end, write_hold, write_report};
use std::alloc::{AllocError, Global};

/// Adds a text that was written.
fn add(text: &mut String, written: Body) -> Result<(), AllocError> {
    push_bytes(text, written.bytes())
}

/// Adds the replies that have no other value than a number.
fn add_numbers(alloc: Global, text: &mut String) -> Result<(), AllocError> {
    add_reply(alloc, text, Reply::Published(1))?;
    add_reply(alloc, text, Reply::Paged)?;
    add_reply(alloc, text, Reply::Done)?;
    add_reply(alloc, text, Reply::Foreign(3))
}

/// Adds the replies to a call on a hold that has ended, by each cause.
fn add_causes(alloc: Global, text: &mut String) -> Result<(), AllocError> {
    for cause in [
        EndCause::Closed,
        EndCause::Detached,
        EndCause::Gap,
        EndCause::Unrecovered,
        EndCause::Overflow,
        EndCause::Answered,
        EndCause::Retry,
        EndCause::TimedOut,
    ] {
        add_reply(alloc, text, Reply::Gone(cause))?;
    }
    Ok(())
}

/// Adds the replies to a call that is for another kind of hold.
fn add_kinds(alloc: Global, text: &mut String) -> Result<(), AllocError> {
    for kind in [
        HoldKind::Stream,
        HoldKind::Plain,
        HoldKind::Response,
        HoldKind::Socket,
    ] {
        add_reply(alloc, text, Reply::OtherKind(kind))?;
    }
    Ok(())
}

fn add_opening(alloc: Global, text: &mut String) -> Result<(), AllocError> {
    let opening = Piece::Opening(Body::new(alloc, b"hi")?);
    add_piece(alloc, text, opening)
}

/// Adds the first and the last lines of a log.
fn add_log(alloc: Global, text: &mut String) -> Result<(), AllocError> {
    let hi = Body::new(alloc, b"hi")?;
    add(text, write_hold(alloc, 2, HoldKind::Socket)?)?;
    add(text, write_end(alloc, &hi, None, None)?)?;
    add(text, write_end(alloc, &hi, None, Some(EndCause::Overflow))?)
}

fn add_report(alloc: Global, text: &mut String) -> Result<(), AllocError> {
    let report = HoldReport {
        number: 3,
        kind: HoldKind::Plain,
        pieces: 2,
        bytes: 40,
        position: None,
        end: EndCause::Gap,
    };
    add(text, write_report(alloc, &report)?)
}

/// The texts of replies, pieces, ends and reports that no script of today leads to, and of one of each other.
pub fn texts(alloc: Global, text: &mut String) -> Result<(), AllocError> {
    add_numbers(alloc, text)?;
    add_causes(alloc, text)?;
    add_kinds(alloc, text)?;
    add_opening(alloc, text)?;
    add_log(alloc, text)?;
    add_report(alloc, text)?;
    add_event(alloc, text, Event::Take { hold: 7, now: 8 })
}
