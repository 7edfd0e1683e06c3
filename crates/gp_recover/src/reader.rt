//! Reads an answer as a page.
ghost use Rattle.std.specs.Prelude.{◌≡◌, ◌++◌, ◌≤◌, ◌+◌, ◌-◌, ℕ, List, [], length, false, true, OnOk, IfOk, IfErr};
ghost use Rattle.gp_instruct_json.specs.Kinds.{has_type};
ghost use Rattle.gp_recover.specs.Pages.{IsPageOf};
ghost use Rattle.gp_instruct.specs.Heads.{IsInstruct};
ghost use Rattle.gp_instruct_json.specs.Answers.{IsFaultBy};
ghost use Rattle.gp_recover.specs.Reading.{IsFault, IsHeadOpen, IsOpen, IsUnread, most_read};

use crate::page::{MOST_CONTENT, Page, PageFault, check_given, page_of};
use gp_instruct::{Instruct, InstructFault, read_headers, read_next};
use gp_instruct_json::{AnswerFault, is_instruct, read_answer};
use gp_plain::{Body, ItemId, Name, Response};
use std::alloc::{AllocError, Global};
use std::marker::Model;

/// The greatest body of instructions, in bytes.
const MOST_BODY: usize = 524_288;

/// Why nothing more is read.
#[derive(Clone, Copy, Drop, Debug, PartialEq)]
pub enum Unread {
    /// The answer is no page.
    Refused(PageFault),
    /// Memory is wanting.
    NoMemory,
}

/// Reads the answer to a request on a channel behind an id, of which nothing has been refused yet.
#[derive(Drop)]
pub struct PageReader {
    alloc: Global,
    head: Response,
    channel: Name,
    from: ItemId,
    content: Body,
}

impl Model for PageReader {
    ghost use Rattle.gp_recover.specs.Reading.{IsOpen, ReadingView};

    ghost Value = { ReadingView };

    ghost view = { λ r. record { head = r.head; channel = r.channel; from = r.from; content = r.content } };

    ghost invariant = { λ r. IsOpen (record { head = r.head; channel = r.channel; from = r.from; content = r.content }) };
}

/// Whether the link beside a body of instructions is good.
#[tactic(auto, using(crate::proofs::Faults::link_open, crate::proofs::Faults::link_refused))]
fn check_link(alloc: Global, head: &Response) -> Result<(), Unread>
    requires ok { head.now.code ≡ 200 }
    requires typed { has_type head.now.fields ≡ true }
    ensures ok { OnOk result ((channel from : List ℕ) → IsHeadOpen head.now channel from) }
    ensures err { IfErr result (λ unread. (content channel from : List ℕ) → IsFault head.now content channel from unread) }
{
    match read_next(alloc, head) {
        Ok(_) => Ok(()),
        Err(InstructFault::Link(_)) => Err(Unread::Refused(PageFault::Instruct)),
        Err(_) => Err(Unread::NoMemory),
    }
}

/// The instruction of fields.
fn read_fields(alloc: Global, head: &Response) -> Result<Option<Instruct>, AnswerFault>
    ensures ok { IfOk result (IsInstruct head.now.fields) }
    ensures err { IfErr result (IsFaultBy false head.now []) }
{
    match read_headers(alloc, head) {
        Ok(instruct) => Ok(instruct),
        Err(InstructFault::NoMemory) => Err(AnswerFault::NoMemory),
        Err(_) => Err(AnswerFault::Refused),
    }
}

/// Whether the instruction of fields is one that a page may have.
#[tactic(auto, using(crate::proofs::Faults::fields_open, crate::proofs::Faults::fields_refused, crate::proofs::Faults::fields_fault))]
fn check_fields(alloc: Global, head: &Response, channel: &Name) -> Result<(), Unread>
    requires ok { head.now.code ≡ 200 }
    requires untyped { has_type head.now.fields ≡ false }
    ensures ok { OnOk result ((from : List ℕ) → IsHeadOpen head.now channel.now from) }
    ensures err { IfErr result (λ unread. (content from : List ℕ) → IsFault head.now content channel.now from unread) }
{
    match read_fields(alloc, head) {
        Ok(instruct) => match check_given(instruct.as_ref(), channel) {
            Ok(()) => Ok(()),
            Err(fault) => Err(Unread::Refused(fault)),
        },
        Err(AnswerFault::Refused) => Err(Unread::Refused(PageFault::Instruct)),
        Err(AnswerFault::NoMemory) => Err(Unread::NoMemory),
    }
}

/// Whether a head refuses nothing of a page.
fn check_head(alloc: Global, head: &Response, channel: &Name) -> Result<(), Unread>
    ensures ok { OnOk result ((from : List ℕ) → IsHeadOpen head.now channel.now from) }
    ensures err { IfErr result (λ unread. (content from : List ℕ) → IsFault head.now content channel.now from unread) }
{
    if head.code != 200 {
        return Err(Unread::Refused(PageFault::Code(head.code)));
    }
    if is_instruct(head) {
        check_link(alloc, head)
    } else {
        check_fields(alloc, head, channel)
    }
}

/// The most content that is read of an answer with this head.
fn most_read(head: &Response) -> usize
    ensures { result ≡ most_read head.now }
{
    if is_instruct(head) {
        MOST_BODY
    } else {
        MOST_CONTENT
    }
}

/// Bytes, with more behind them.
fn joined(content: Body, part: &Body) -> Result<Body, AllocError>
    ensures { IfOk result (λ all. all ≡ content ++ part.now) }
{
    let mut bytes = content.into_vec();
    bytes.extend_from_slice(part.bytes())?;
    Ok(Body::from_vec(bytes))
}

impl PageReader {
    /// Begins with the head of an answer to a request on a channel behind an id. It refuses what the head alone decides, in this order: a code
    /// other than 200; an instruction, or the link beside a body of instructions, that is refused, or one of a long poll; a stream that goes on
    /// without an id of the channel.
    #[tactic(auto, using(crate::proofs::Faults::new_open, crate::proofs::Faults::head_unread))]
    pub fn new(
        alloc: Global,
        head: Response,
        channel: Name,
        from: ItemId,
    ) -> Result<PageReader, Unread>
        ensures ok { IfOk result (λ reader. reader ≡ record { head = head; channel = channel; from = from; content = [] }) }
        ensures open { IfOk result IsOpen }
        ensures err { IfErr result (IsUnread head [] channel from) }
    {
        match check_head(alloc, &head, &channel) {
            Ok(()) => Ok(PageReader {
                alloc,
                head,
                channel,
                from,
                content: Body::empty(alloc),
            }),
            Err(unread) => Err(unread),
        }
    }

    /// Adds a part of the content. It refuses the part with byte 262,145 of a page's content, or with byte 524,289 of a body of instructions.
    #[tactic(auto, using(crate::proofs::Faults::long_part, crate::proofs::Faults::more_short))]
    pub fn add(self, part: Body) -> Result<PageReader, Unread>
        ensures ok { IfOk result (λ reader. reader ≡ record self { content = self.content ++ part }) }
        ensures open { IfOk result IsOpen }
        ensures err { IfErr result (IsUnread self.head (self.content ++ part) self.channel self.from) }
    {
        if most_read(&self.head) - self.content.len() < part.len() {
            return Err(Unread::Refused(PageFault::TooLong));
        }
        let PageReader {
            alloc,
            head,
            channel,
            from,
            content,
        } = self;
        let Ok(content) = joined(content, &part) else {
            return Err(Unread::NoMemory);
        };
        Ok(PageReader {
            alloc,
            head,
            channel,
            from,
            content,
        })
    }

    /// The page of an answer whose content is whole. A body of instructions is read here.
    #[tactic(auto, using(crate::proofs::Faults::whole_page, crate::proofs::Faults::whole_fault, crate::proofs::Faults::whole_refused))]
    pub fn finish(self) -> Result<Page, Unread>
        ensures ok { IfOk result (IsPageOf self.head self.content self.channel self.from) }
        ensures err { IfErr result (IsFault self.head self.content self.channel self.from) }
    {
        let PageReader {
            alloc,
            head,
            channel,
            from,
            content,
        } = self;
        match read_answer(alloc, head, content) {
            Ok(answer) => match page_of(answer.instruct, answer.body, &channel, from) {
                Ok(page) => Ok(page),
                Err(fault) => Err(Unread::Refused(fault)),
            },
            Err(AnswerFault::Refused) => Err(Unread::Refused(PageFault::Instruct)),
            Err(AnswerFault::NoMemory) => Err(Unread::NoMemory),
        }
    }
}
