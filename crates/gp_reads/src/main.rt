//! The rows that the readers are tested by: texts of heads, bodies, routes, instructions, publish bodies, tokens and handshakes, and what
//! each reader answers.
//!
//! Each line of standard input is a kind, its arguments, and a text; the stored output repeats the line and has the
//! answer behind `=`, worked out by hand from the rules of docs/PROTOCOL.md and the standards. `gp_escapes` says how texts are escaped. So a
//! new row is two lines, and there is nothing to prove of it. It stands on the readers alone.
#![tactic(auto)]

mod answers;
mod bodies;
mod grip;
mod handshakes;
mod heads;
mod holds;
mod items;
mod json;
mod routes;
mod tokens;

use gp_escapes::unescaped;
use std::alloc::{AllocError, Global};
use std::io;

/// The first word of a line, and what stands behind its space.
fn cut(line: &str) -> (&str, &str) {
    line.split_once(' ').unwrap_or((line, ""))
}

/// A row: its kind, its words, and its text from each of them on.
#[derive(Drop)]
struct Row<'a> {
    alloc: Global,
    kind: &'a str,
    first: &'a str,
    second: &'a str,
    rest: &'a str,
    whole: Vec<u8>,
    behind_first: Vec<u8>,
    behind_second: Vec<u8>,
}

impl<'a> Row<'a> {
    fn read(alloc: Global, line: &'a str) -> Result<Row<'a>, AllocError> {
        let (kind, text) = cut(line);
        let (first, more) = cut(text);
        let (second, rest) = cut(more);
        Ok(Row {
            alloc,
            kind,
            first,
            second,
            rest,
            whole: unescaped(alloc, text)?,
            behind_first: unescaped(alloc, more)?,
            behind_second: unescaped(alloc, rest)?,
        })
    }
}

fn of_heads(text: &mut String, row: &Row<'_>) -> Result<bool, AllocError> {
    let bytes = row.whole.as_slice();
    match row.kind {
        "request" => heads::request(row.alloc, text, bytes)?,
        "request-by-bytes" => heads::answered_at(row.alloc, text, bytes)?,
        "response" => heads::response(row.alloc, text, bytes)?,
        "write-request" => heads::write_request_read(row.alloc, text, bytes)?,
        "write-response" => heads::write_response_read(row.alloc, text, bytes)?,
        "target" => heads::target(row.alloc, text, bytes)?,
        _ => return Ok(false),
    }
    Ok(true)
}

fn of_bodies(text: &mut String, row: &Row<'_>) -> Result<bool, AllocError> {
    let bytes = row.behind_second.as_slice();
    match row.kind {
        "plan-request" => bodies::plan_of_request(
            row.alloc,
            text,
            row.first,
            row.behind_first.as_slice(),
        )?,
        "plan-response" => bodies::plan_of_response(row.alloc, text, row.first, row.second, bytes)?,
        "body" => bodies::body(row.alloc, text, row.first, row.second, bytes)?,
        "pieces" => bodies::pieces(row.alloc, text, row.first, row.second, bytes)?,
        "feed-all" => bodies::feed_all(row.alloc, text, row.first, row.second, bytes)?,
        "chunk" => bodies::chunk(text, row.first)?,
        _ => return Ok(false),
    }
    Ok(true)
}

/// `passed CODE SENT METHOD FIELDS`
fn push_passed(text: &mut String, row: &Row<'_>) -> Result<(), AllocError> {
    let (method, fields) = cut(row.rest);
    let fields = unescaped(row.alloc, fields)?;
    answers::passed(
        row.alloc,
        text,
        row.first,
        row.second,
        method,
        fields.as_slice(),
    )
}

fn of_answers(text: &mut String, row: &Row<'_>) -> Result<bool, AllocError> {
    let bytes = row.behind_second.as_slice();
    match row.kind {
        "answer" => answers::answer(row.alloc, text, row.first, row.second, bytes)?,
        "passed" => push_passed(text, row)?,
        "framed" => answers::framed(text, row.first, row.second)?,
        "refusal" => answers::refusal(text, row.first, row.second)?,
        "published" => answers::published(text)?,
        "routes" => routes::picked(row.alloc, text, row.first, row.second, bytes)?,
        _ => return Ok(false),
    }
    Ok(true)
}

/// `grip-under FIELDS BODY`
fn push_grip_under(text: &mut String, row: &Row<'_>) -> Result<(), AllocError> {
    let fields = unescaped(row.alloc, row.first)?;
    grip::body(
        row.alloc,
        text,
        fields.as_slice(),
        row.behind_first.as_slice(),
    )
}

/// `held NOW FIELDS BODY`
fn push_held(text: &mut String, row: &Row<'_>) -> Result<(), AllocError> {
    let fields = unescaped(row.alloc, row.second)?;
    let body = row.behind_second.as_slice();
    holds::held(row.alloc, text, row.first, fields.as_slice(), body)
}

fn of_grip(text: &mut String, row: &Row<'_>) -> Result<bool, AllocError> {
    let bytes = row.whole.as_slice();
    match row.kind {
        "headers" => grip::headers(row.alloc, text, bytes)?,
        "link" => grip::link(row.alloc, text, bytes)?,
        "last" => grip::last(row.alloc, text, row.first, row.second)?,
        "grip" => grip::body(row.alloc, text, &[], bytes)?,
        "grip-under" => push_grip_under(text, row)?,
        "held" => push_held(text, row)?,
        "instruct-type" => grip::is_instruct_type(row.alloc, text, bytes)?,
        _ => return Ok(false),
    }
    Ok(true)
}

/// `hmac KEY TEXT`
fn push_mac(text: &mut String, row: &Row<'_>) -> Result<(), AllocError> {
    let key = unescaped(row.alloc, row.first)?;
    tokens::mac(text, key.as_slice(), row.behind_first.as_slice())
}

fn of_others(text: &mut String, row: &Row<'_>) -> Result<bool, AllocError> {
    let bytes = row.whole.as_slice();
    match row.kind {
        "part" => json::part(row.alloc, text, bytes)?,
        "items" => items::items(row.alloc, text, bytes)?,
        "hmac" => push_mac(text, row)?,
        "accept-key" => handshakes::accepted(row.alloc, text, bytes)?,
        "handshake" => handshakes::shaken(row.alloc, text, bytes)?,
        "token" => tokens::written(row.alloc, text, row.first, row.second, row.rest)?,
        "check" => tokens::checked(row.alloc, text, row.first, row.second, row.rest)?,
        _ => return Ok(false),
    }
    Ok(true)
}

/// Adds what the reader of a kind answers. It says whether there is such a kind.
fn push_answer(text: &mut String, row: &Row<'_>) -> Result<bool, AllocError> {
    Ok(
        of_heads(text, row)?
            || of_bodies(text, row)?
            || of_answers(text, row)?
            || of_grip(text, row)?
            || of_others(text, row)?,
    )
}

/// The line with the answer of a row, or an empty text where the line is no row.
fn answer(alloc: Global, line: &str) -> Result<String, AllocError> {
    let row = Row::read(alloc, line)?;
    let mut text = String::from_str(alloc, "= ")?;
    if !push_answer(&mut text, &row)? {
        text.clear();
    }
    Ok(text)
}

fn main(rt: HostRuntime) -> io::Result<()> {
    for line in rt.lines(rt.alloc()) {
        let line = line?;
        println!(rt; "{line}")?;
        let text = answer(rt.alloc(), line.as_str())?;
        if !text.is_empty() {
            println!(rt; "{text}")?;
        } else if !line.is_empty() && !line.starts_with("#") {
            println!(rt; "not a kind of row")?;
        }
    }
    Ok(())
}
