use gp_body::{BodyFault, FedFault};
use gp_escapes::push_escaped;
use gp_exchange::{ExchangeFault, Progress};
use gp_plain::{Field, Response};
use std::alloc::AllocError;

/// Whether an exchange is over with this answer.
pub fn is_last(progress: &Progress) -> bool {
    match progress {
        Progress::End => true,
        Progress::Fault(_) => true,
        Progress::NoMemory => true,
        Progress::Head(_) => false,
        Progress::Part(_) => false,
        Progress::NotReady => false,
    }
}

fn push_field(text: &mut String, field: &Field) -> Result<(), AllocError> {
    text.push(' ')?;
    push_escaped(text, field.name.bytes())?;
    text.push('=')?;
    push_escaped(text, field.value.bytes())
}

/// The code, the reason and the fields.
fn push_head(text: &mut String, head: &Response) -> Result<(), AllocError> {
    write!(text, "head {} ", head.code)?;
    push_escaped(text, head.reason.bytes())?;
    for field in head.fields.as_slice() {
        push_field(text, field)?;
    }
    Ok(())
}

fn plan_fault(fault: BodyFault) -> &'static str {
    match fault {
        BodyFault::Both => "both",
        BodyFault::Length => "length",
        BodyFault::Coding => "coding",
        BodyFault::NoMemory => "no memory",
    }
}

/// Adds why an exchange failed.
pub fn push_fault(text: &mut String, fault: ExchangeFault) -> Result<(), AllocError> {
    match fault {
        ExchangeFault::Dial => text.push_str("fault dial"),
        ExchangeFault::Head => text.push_str("fault head"),
        ExchangeFault::Interim => text.push_str("fault interim"),
        ExchangeFault::Plan(fault) => write!(text, "fault plan {}", plan_fault(fault)),
        ExchangeFault::Body(FedFault::Chunk(place)) => write!(text, "fault chunk {place}"),
        ExchangeFault::Body(FedFault::TooLong(limit)) => write!(text, "fault too long {limit}"),
        ExchangeFault::Body(FedFault::Cut(count)) => write!(text, "fault cut {count}"),
    }
}

/// Adds a line that says what a poll gave.
pub fn push_progress(text: &mut String, progress: &Progress) -> Result<(), AllocError> {
    match progress {
        Progress::Head(head) => push_head(text, head)?,
        Progress::Part(part) => {
            text.push_str("part ")?;
            push_escaped(text, part.bytes())?;
        }
        Progress::End => text.push_str("end")?,
        Progress::NotReady => text.push_str("not ready")?,
        Progress::Fault(fault) => push_fault(text, *fault)?,
        Progress::NoMemory => text.push_str("no memory")?,
    }
    text.push('\n')
}
