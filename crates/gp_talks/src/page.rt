use crate::shown::push_fault;
use gp_escapes::push_escaped;
use gp_plain::{Body, Then};
use gp_recover::{Page, PageFault, Recovered};
use std::alloc::AllocError;

/// The most bytes of content that are shown, and not counted.
const MOST_SHOWN: usize = 100;

fn then_word(then: Then) -> &'static str {
    match then {
        Then::Hold => "hold",
        Then::Next => "next",
        Then::End => "end",
    }
}

fn push_link(text: &mut String, link: Option<&Body>) -> Result<(), AllocError> {
    match link {
        Some(link) => {
            text.push_str(", link ")?;
            push_escaped(text, link.bytes())
        }
        None => text.push_str(", no link"),
    }
}

fn push_content(text: &mut String, content: &Body) -> Result<(), AllocError> {
    if content.len() > MOST_SHOWN {
        return write!(text, ", {} bytes", content.len());
    }
    text.push_str(", content ")?;
    push_escaped(text, content.bytes())
}

fn push_page(text: &mut String, page: &Page) -> Result<(), AllocError> {
    text.push_str("got to ")?;
    push_escaped(text, page.to.bytes())?;
    write!(text, ", then {}", then_word(page.then))?;
    push_link(text, page.link.as_ref())?;
    push_content(text, &page.bytes)
}

fn push_page_fault(text: &mut String, fault: PageFault) -> Result<(), AllocError> {
    text.push_str("failed ")?;
    match fault {
        PageFault::Exchange(fault) => {
            text.push_str("exchange ")?;
            push_fault(text, fault)
        }
        PageFault::Code(code) => write!(text, "code {code}"),
        PageFault::Instruct => text.push_str("instruct"),
        PageFault::Channel => text.push_str("channel"),
        PageFault::TooLong => text.push_str("too long"),
    }
}

/// Adds what a poll of a recovery gave.
pub fn push_recovered(text: &mut String, recovered: &Recovered) -> Result<(), AllocError> {
    match recovered {
        Recovered::Got(page) => push_page(text, page),
        Recovered::NotReady => text.push_str("not ready"),
        Recovered::Failed(fault) => push_page_fault(text, *fault),
        Recovered::NoMemory => text.push_str("no memory"),
    }
}
