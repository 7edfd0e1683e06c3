ghost use Rattle.std.specs.Prelude.{◌≡◌, ◌+◌, ◌%◌, ◌++◌, IfOk};
ghost use Rattle.std.specs.Fmt.{decimal};
ghost use Rattle.gp_head.specs.Heads.{IsRequestText, IsResponseText};
ghost use Rattle.gp_head.specs.Texts.{field_text, fields_text, code_text, request_text, response_text, IsReadAgain};

use gp_plain::{Body, Field, Request, Response};
use std::alloc::{AllocError, Global};

/// The text of a request's head (RFC 9112, section 3): `METHOD SP TARGET SP HTTP/1.1 CRLF`, each field as
/// `NAME: VALUE CRLF`, and an empty line. The version that is written is always 1.1. A head of that version that was
/// read is read again from its text, where that is within the limits of a head.
pub fn write_request(alloc: Global, head: &Request) -> Result<Body, AllocError>
    ensures text { IfOk result (λ text. text ≡ request_text head.now) }
    ensures again { IfOk result (IsReadAgain IsRequestText (λ request. request.version) head.now) }
{
    let mut text = Vec::new(alloc);
    text.extend_from_slice(head.method.bytes())?;
    text.extend_from_slice(b" ")?;
    text.extend_from_slice(head.target.bytes())?;
    text.extend_from_slice(b" HTTP/1.1\r\n")?;
    write_fields(&mut text, head.fields.as_slice())?;
    Ok(Body::from_vec(text))
}

/// The text of a response's head (RFC 9112, section 4): `HTTP/1.1 SP CODE SP REASON CRLF`, each field as
/// `NAME: VALUE CRLF`, and an empty line. The code has three digits, the last three where it has more, and the space
/// before an empty reason stays. What `write_request` says of the version and of reading again holds here too.
pub fn write_response(alloc: Global, head: &Response) -> Result<Body, AllocError>
    ensures text { IfOk result (λ text. text ≡ response_text head.now) }
    ensures again { IfOk result (IsReadAgain IsResponseText (λ response. response.version) head.now) }
{
    let mut text = Vec::new(alloc);
    text.extend_from_slice(b"HTTP/1.1 ")?;
    text.extend_from_slice(&code_digits(head.code))?;
    text.extend_from_slice(b" ")?;
    text.extend_from_slice(head.reason.bytes())?;
    text.extend_from_slice(b"\r\n")?;
    write_fields(&mut text, head.fields.as_slice())?;
    Ok(Body::from_vec(text))
}

/// Writes the field lines, and the empty line behind them.
fn write_fields(text: &mut Vec<u8>, fields: &[Field]) -> Result<(), AllocError>
    ensures { IfOk result (λ _. text.new.items ≡ text.old.items ++ fields_text fields.now) }
{
    for field in fields {
        write_field(text, field)?;
    }
    text.extend_from_slice(b"\r\n")
}

/// Writes one field line, `NAME: VALUE CRLF`.
pub fn write_field(text: &mut Vec<u8>, field: &Field) -> Result<(), AllocError>
    ensures { IfOk result (λ _. text.new.items ≡ text.old.items ++ field_text field.now) }
{
    write_value(text, field.name.bytes(), field.value.bytes())
}

/// Writes the line of a field of this name and this value.
pub fn write_value(text: &mut Vec<u8>, name: &[u8], value: &[u8]) -> Result<(), AllocError>
    ensures { IfOk result (λ _. text.new.items ≡ text.old.items ++ field_text (record { name = name.now; value = value.now })) }
{
    text.extend_from_slice(name)?;
    text.extend_from_slice(b": ")?;
    text.extend_from_slice(value)?;
    text.extend_from_slice(b"\r\n")
}

/// Writes the line of a field whose value is a number in decimal digits.
pub fn write_number(
    alloc: Global,
    text: &mut Vec<u8>,
    name: &[u8],
    number: u64,
) -> Result<(), AllocError>
    ensures { IfOk result (λ _. text.new.items ≡ text.old.items ++ field_text (record { name = name.now; value = decimal number })) }
{
    let digits = format!(in alloc; "{number}")?;
    write_value(text, name, digits.as_bytes())
}

/// The last three digits of a status code.
pub fn code_digits(code: u16) -> [u8; 3]
    ensures { result ≡ code_text code }
{
    [digit(code / 100), digit(code / 10), digit(code)]
}

/// The last digit of a number.
fn digit(number: u16) -> u8
    ensures { result ≡ 48 + number % 10 }
{
    b'0' + (number % 10) as u8
}
