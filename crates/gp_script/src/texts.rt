ghost use Rattle.std.specs.Prelude.{◌≡◌, ◌++◌, ◌∷◌, [], IfOk, OnErr, OnOk, codes, option_map, string_bytes};
ghost use Rattle.gp_script.specs.Spelling.{joined, line_text, word};
ghost use Rattle.gp_script.specs.Texts.{cause_word, close_words, end_text, end_word, hold_text, hold_words, kind_word, message_words, piece_text, piece_words, reply_text, reply_words, report_text, report_words, taken_words};

use crate::line::Line;
use gp_plain::{Body, EndCause, HoldKind, HoldReport, ItemId, Message, Piece, Reply, Taken};
use std::alloc::{AllocError, Global};
use std::mem::replace;

/// What was written, with the line's line feed.
fn body(line: Line) -> Result<Body, AllocError>
    ensures { IfOk result (λ body. body ≡ line ++ codes "\n") }
{
    Ok(Body::from_vec(line.ended()?.into_bytes()))
}

/// The text, which is left without a byte.
fn moved_out(alloc: Global, text: &mut String) -> String
    ensures moved { string_bytes result ≡ string_bytes text.old }
    ensures left { string_bytes text.new ≡ [] }
{
    replace(text, String::new(alloc))
}

fn kind_word(kind: HoldKind) -> &'static str
    ensures { result.now ≡ kind_word kind }
{
    match kind {
        HoldKind::Stream => "stream",
        HoldKind::Plain => "plain",
        HoldKind::Response => "response",
        HoldKind::Socket => "socket",
    }
}

/// The word of an end's cause.
pub fn cause_word(cause: EndCause) -> &'static str
    ensures { result.now ≡ cause_word cause }
{
    match cause {
        EndCause::Closed => "closed",
        EndCause::Detached => "detached",
        EndCause::Gap => "gap",
        EndCause::Unrecovered => "unrecovered",
        EndCause::Overflow => "overflow",
        EndCause::Answered => "answered",
        EndCause::Retry => "retry",
        EndCause::TimedOut => "timedout",
    }
}

fn end_word(ended: Option<EndCause>) -> &'static str
    ensures { result.now ≡ end_word ended }
{
    match ended {
        Some(cause) => cause_word(cause),
        None => "!",
    }
}

fn taken_line(line: Line, taken: &Taken) -> Result<Line, AllocError>
    ensures { IfOk result (λ longer. longer ≡ line ++ joined (taken_words taken.now)) }
{
    line.begun("taken")?
        .number(taken.pieces.len() as u64)?
        .id(taken.recover.as_ref())?
        .word(end_word(taken.ended))
}

fn reply_line(line: Line, reply: &Reply) -> Result<Line, AllocError>
    ensures { IfOk result (λ longer. longer ≡ line ++ joined (reply_words reply.now)) }
{
    match reply {
        Reply::Attached(number) => line.begun("attached")?.number(*number),
        Reply::Full(limit) => line.begun("full")?.number(*limit as u64),
        Reply::Published(count) => line.begun("published")?.number(*count as u64),
        Reply::Repeat(id) => line.begun("repeat")?.bytes(id.bytes()),
        Reply::Taken(taken) => taken_line(line, taken),
        Reply::Paged => line.begun("paged"),
        Reply::Stale { from, position } => line
            .begun("stale")?
            .bytes(from.bytes())?
            .bytes(position.bytes()),
        Reply::Done => line.begun("done"),
        Reply::Foreign(owner) => line.begun("foreign")?.number(*owner),
        Reply::Gone(cause) => line.begun("gone")?.word(cause_word(*cause)),
        Reply::OtherKind(kind) => line.begun("other")?.word(kind_word(*kind)),
        Reply::Unknown(hold) => line.begun("unknown")?.number(*hold),
    }
}

/// The line of a reply, with its line feed.
pub fn write_reply(alloc: Global, reply: &Reply) -> Result<Body, AllocError>
    ensures { IfOk result (λ body. body ≡ reply_text reply.now) }
{
    body(reply_line(Line::empty(alloc)?, reply)?)
}

/// Adds the line of a reply, with its line feed, to a text, in place. Where memory is wanting
/// the text is left empty.
pub fn add_reply(alloc: Global, text: &mut String, reply: &Reply) -> Result<(), AllocError>
    ensures ok { OnOk result (string_bytes text.new ≡ string_bytes text.old ++ reply_text reply.now) }
    ensures err { OnErr result (string_bytes text.new ≡ []) }
{
    let line = reply_line(Line::behind(moved_out(alloc, text)), reply)?;
    *text = line.ended()?;
    Ok(())
}

fn message_line(line: Line, message: &Message) -> Result<Line, AllocError>
    ensures { IfOk result (λ longer. longer ≡ line ++ joined (message_words message.now)) }
{
    let (form, bytes) = match message {
        Message::Text(bytes) => ("text", bytes),
        Message::Binary(bytes) => ("binary", bytes),
        Message::Ping(bytes) => ("ping", bytes),
        Message::Pong(bytes) => ("pong", bytes),
        Message::Close {
            code: Some(code),
            ..
        } => return line.begun("hangup")?.number(*code as u64),
        Message::Close { code: None, .. } => return line.begun("hangup")?.word("!"),
    };
    line.begun("message")?.word(form)?.bytes(bytes.bytes())
}

fn piece_line(line: Line, piece: &Piece) -> Result<Line, AllocError>
    ensures { IfOk result (λ longer. longer ≡ line ++ joined (piece_words piece.now)) }
{
    match piece {
        Piece::Opening(bytes) => line.begun("opening")?.bytes(bytes.bytes()),
        Piece::Item {
            to,
            close: true,
            ..
        } => line.begun("close")?.id(to.as_ref()),
        Piece::Item {
            to,
            bytes,
            close: false,
        } => line.begun("item")?.id(to.as_ref())?.bytes(bytes.bytes()),
        Piece::Page { from, to, bytes } => line
            .begun("page")?
            .bytes(from.bytes())?
            .bytes(to.bytes())?
            .bytes(bytes.bytes()),
        Piece::Message(message) => message_line(line, message),
        Piece::Answer { part, .. } => line
            .begun("answer")?
            .number(part.code as u64)?
            .bytes(part.body.bytes()),
    }
}

/// The line of a piece of a log, with its line feed.
pub fn write_piece(alloc: Global, piece: &Piece) -> Result<Body, AllocError>
    ensures { IfOk result (λ body. body ≡ piece_text piece.now) }
{
    body(piece_line(Line::empty(alloc)?, piece)?)
}

/// Adds the line of a piece of a log, with its line feed, to a text, in place. Where memory is wanting
/// the text is left empty.
pub fn add_piece(alloc: Global, text: &mut String, piece: &Piece) -> Result<(), AllocError>
    ensures ok { OnOk result (string_bytes text.new ≡ string_bytes text.old ++ piece_text piece.now) }
    ensures err { OnErr result (string_bytes text.new ≡ []) }
{
    let line = piece_line(Line::behind(moved_out(alloc, text)), piece)?;
    *text = line.ended()?;
    Ok(())
}

/// The lines so far, and one that says where a hold stands.
fn close_line(
    line: Line,
    position: Option<&ItemId>,
    ended: Option<EndCause>,
) -> Result<Line, AllocError>
    ensures { IfOk result (λ longer. longer ≡ line ++ 10 ∷ joined (close_words ended (option_map (λ id. id.now) position.entry))) }
{
    match ended {
        Some(cause) => line.next("ended")?.word(cause_word(cause))?.id(position),
        None => line.next("live")?.id(position),
    }
}

/// The last two lines of a log, the second without its line feed.
fn end_line(
    line: Line,
    text: &Body,
    position: Option<&ItemId>,
    ended: Option<EndCause>,
) -> Result<Line, AllocError>
    ensures { IfOk result (λ longer. longer ≡ line ++ line_text (codes "text" ∷ word text.now ∷ []) ++ joined (close_words ended (option_map (λ id. id.now) position.entry))) }
{
    let line = line.begun("text")?.bytes(text.bytes())?;
    close_line(line, position, ended)
}

/// The last two lines of a log, each with its line feed: `text` is all the bytes of the log's pieces, joined, and
/// `position` and `ended` say where the hold stands.
pub fn write_end(
    alloc: Global,
    text: &Body,
    position: Option<&ItemId>,
    ended: Option<EndCause>,
) -> Result<Body, AllocError>
    ensures { IfOk result (λ body. body ≡ end_text text.now (option_map (λ id. id.now) position.entry) ended) }
{
    body(end_line(Line::empty(alloc)?, text, position, ended)?)
}

/// Adds the last two lines of a log to a text, in place, as `write_end` writes them: `pieces` is all the bytes of the
/// log's pieces. Where memory is wanting the text is left empty.
pub fn add_end(
    alloc: Global,
    text: &mut String,
    pieces: &Body,
    position: Option<&ItemId>,
    ended: Option<EndCause>,
) -> Result<(), AllocError>
    ensures ok { OnOk result (string_bytes text.new ≡ string_bytes text.old ++ end_text pieces.now (option_map (λ id. id.now) position.entry) ended) }
    ensures err { OnErr result (string_bytes text.new ≡ []) }
{
    let line = end_line(
        Line::behind(moved_out(alloc, text)),
        pieces,
        position,
        ended,
    )?;
    *text = line.ended()?;
    Ok(())
}

fn hold_line(line: Line, number: u64, kind: HoldKind) -> Result<Line, AllocError>
    ensures { IfOk result (λ longer. longer ≡ line ++ joined (hold_words number kind)) }
{
    line.begun("hold")?.number(number)?.word(kind_word(kind))
}

/// The first line of a hold's log, with its line feed.
pub fn write_hold(alloc: Global, number: u64, kind: HoldKind) -> Result<Body, AllocError>
    ensures { IfOk result (λ body. body ≡ hold_text number kind) }
{
    body(hold_line(Line::empty(alloc)?, number, kind)?)
}

/// Adds the first line of a hold's log, with its line feed, to a text, in place. Where memory is wanting
/// the text is left empty.
pub fn add_hold(
    alloc: Global,
    text: &mut String,
    number: u64,
    kind: HoldKind,
) -> Result<(), AllocError>
    ensures ok { OnOk result (string_bytes text.new ≡ string_bytes text.old ++ hold_text number kind) }
    ensures err { OnErr result (string_bytes text.new ≡ []) }
{
    let line = hold_line(Line::behind(moved_out(alloc, text)), number, kind)?;
    *text = line.ended()?;
    Ok(())
}

fn report_line(line: Line, report: &HoldReport) -> Result<Line, AllocError>
    ensures { IfOk result (λ longer. longer ≡ line ++ joined (report_words report.now)) }
{
    hold_line(line, report.number, report.kind)?
        .number(report.pieces)?
        .number(report.bytes)?
        .id(report.position.as_ref())?
        .word(cause_word(report.end))
}

/// The line of a hold's report, with its line feed.
pub fn write_report(alloc: Global, report: &HoldReport) -> Result<Body, AllocError>
    ensures { IfOk result (λ body. body ≡ report_text report.now) }
{
    body(report_line(Line::empty(alloc)?, report)?)
}

/// Adds the line of a hold's report, with its line feed, to a text, in place. Where memory is wanting the text is left
/// empty.
pub fn add_report(alloc: Global, text: &mut String, report: &HoldReport) -> Result<(), AllocError>
    ensures ok { OnOk result (string_bytes text.new ≡ string_bytes text.old ++ report_text report.now) }
    ensures err { OnErr result (string_bytes text.new ≡ []) }
{
    let line = report_line(Line::behind(moved_out(alloc, text)), report)?;
    *text = line.ended()?;
    Ok(())
}
