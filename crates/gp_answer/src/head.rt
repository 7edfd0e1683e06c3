ghost use Rattle.std.specs.Prelude.{◌≡◌, ◌++◌, IfOk, OnOk, string_bytes};
ghost use Rattle.std.specs.List.{flat_map};
ghost use Rattle.gp_head.specs.Texts.{field_text, response_text};
ghost use Rattle.gp_answer.specs.Answers.{added, answer_head, is_for_proxy, is_passed, passed};

use crate::framing::Framing;
use gp_head::{code_digits, write_field, write_number, write_value};
use gp_plain::{Body, Field};
use gp_text::goes_on;
use std::alloc::{AllocError, Global};

fn is_for_proxy(name: &[u8]) -> bool
    ensures { result ≡ is_for_proxy name.now }
{
    &name[..name.len().min(5)] == b"grip-".as_slice()
}

fn is_passed(fields: &[Field], field: &Field) -> bool
    ensures { result ≡ is_passed fields.now field.now }
{
    goes_on(fields, field) && !is_for_proxy(field.name.bytes())
}

/// Writes the fields that are passed on.
fn write_passed(text: &mut Vec<u8>, fields: &[Field]) -> Result<(), AllocError>
    ensures { OnOk result (text.new.items ≡ text.old.items ++ flat_map field_text (passed fields.now)) }
{
    for field in fields {
        if is_passed(fields, field) {
            write_field(text, field)?;
        }
    }
    Ok(())
}

/// Writes the fields that are added.
#[tactic(auto, using(crate::proofs::Texts::one_added, crate::proofs::Texts::two_added))]
fn write_added(alloc: Global, text: &mut Vec<u8>, framing: Framing) -> Result<(), AllocError>
    ensures { OnOk result (text.new.items ≡ text.old.items ++ flat_map field_text (added framing)) }
{
    match framing {
        Framing::Length(bytes) => {
            write_number(alloc, text, b"content-length", bytes)?;
            write_value(text, b"connection", b"close")
        }
        Framing::Chunked => {
            write_value(text, b"transfer-encoding", b"chunked")?;
            write_value(text, b"connection", b"close")
        }
        Framing::Close => write_value(text, b"connection", b"close"),
    }
}

/// The head of an answer with a code, a reason, the fields of an origin or of an item, and the fields by which its body is framed. The fields of
/// one connection alone, those that `connection` lists, `content-length`, and those for the proxy, whose names begin with `grip-`, aren't
/// passed on. `connection: close` is always added.
pub fn answer_head(
    alloc: Global,
    code: u16,
    reason: &[u8],
    fields: &[Field],
    framing: Framing,
) -> Result<Body, AllocError>
    ensures { IfOk result (λ text. text ≡ response_text (answer_head code reason.now fields.now framing)) }
{
    let mut text = Vec::new(alloc);
    text.extend_from_slice(b"HTTP/1.1 ")?;
    text.extend_from_slice(&code_digits(code))?;
    text.extend_from_slice(b" ")?;
    text.extend_from_slice(reason)?;
    text.extend_from_slice(b"\r\n")?;
    write_passed(&mut text, fields)?;
    write_added(alloc, &mut text, framing)?;
    text.extend_from_slice(b"\r\n")?;
    Ok(Body::from_vec(text))
}
