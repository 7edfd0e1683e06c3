ghost use Rattle.std.specs.Prelude.{◌≡◌, ◌++◌, IfOk, OnOk, codes, map, option_map};
ghost use Rattle.std.specs.List.{flat_map, list_any};
ghost use Rattle.httparse.specs.Ascii.{crlf_bytes};
ghost use Rattle.gp_head.specs.Texts.{field_text, fields_text};
ghost use Rattle.gp_head.specs.Writable.{with_slash};
ghost use Rattle.gp_text.specs.Lists.{has_field};
ghost use Rattle.gp_text.specs.Hops.{going_on};
ghost use Rattle.gp_forward.specs.Forwards.{bytes_or, forwarded_fields, host_fields, is_kept, last_field, length_fields, sig_fields};

use gp_head::{write_field, write_number, write_value};
use gp_plain::{Address, Body, Field};
use gp_text::goes_on;
use std::alloc::{AllocError, Global};

/// Writes the request line: `METHOD SP PATH SP HTTP/1.1 CRLF`, with `/` before a path that has no byte.
pub(crate) fn write_line(text: &mut Vec<u8>, method: &[u8], path: &[u8]) -> Result<(), AllocError>
    ensures { OnOk result (text.new.items ≡ text.old.items ++ (method.now ++ codes " " ++ with_slash path.now ++ codes " HTTP/1.1" ++ crlf_bytes)) }
{
    text.extend_from_slice(method)?;
    text.extend_from_slice(b" ")?;
    if path.is_empty() || path[0] != b'/' {
        text.extend_from_slice(b"/")?;
    }
    text.extend_from_slice(path)?;
    text.extend_from_slice(b" HTTP/1.1\r\n")
}

/// Writes the fields that go on.
fn write_kept(text: &mut Vec<u8>, fields: &[Field]) -> Result<(), AllocError>
    ensures { OnOk result (text.new.items ≡ text.old.items ++ flat_map field_text (going_on fields.now)) }
{
    for field in fields {
        if goes_on(fields, field) {
            write_field(text, field)?;
        }
    }
    Ok(())
}

fn is_kept(fields: &[Field], name: &[u8], field: &Field) -> bool
    ensures { result ≡ is_kept fields.now name.now field.now }
{
    goes_on(fields, field) && field.name.bytes() == name
}

fn any_is_kept(fields: &[Field], name: &[u8]) -> bool
    ensures { result ≡ list_any (is_kept fields.now name.now) fields.now }
{
    fields.iter().any(|field| is_kept(fields, name, field))
}

/// Whether a field of this name goes on.
#[tactic(auto, using(crate::proofs::Kept::any_kept))]
fn keeps(fields: &[Field], name: &[u8]) -> bool
    ensures { result ≡ has_field name.now (going_on fields.now) }
{
    any_is_kept(fields, name)
}

/// Writes the origin's name and port as `host`, where no such field goes on.
fn write_host(
    alloc: Global,
    text: &mut Vec<u8>,
    fields: &[Field],
    address: &Address,
) -> Result<(), AllocError>
    ensures { OnOk result (text.new.items ≡ text.old.items ++ flat_map field_text (host_fields (going_on fields.now) address.now)) }
{
    if keeps(fields, b"host") {
        return Ok(());
    }
    let mut host = address.host.bytes().to_vec(alloc)?;
    let port = format!(in alloc; ":{}", address.port)?;
    host.extend_from_slice(port.as_bytes())?;
    write_value(text, b"host", host.as_slice())
}

/// Writes the length of the body, where there is one.
fn write_length(alloc: Global, text: &mut Vec<u8>, body: Option<&[u8]>) -> Result<(), AllocError>
    ensures { OnOk result (text.new.items ≡ text.old.items ++ flat_map field_text (length_fields (option_map (λ b. b.now) body.entry))) }
{
    match body {
        None => Ok(()),
        Some(bytes) => {
            write_number(alloc, text, b"content-length", bytes.len() as u64)?;
            Ok(())
        }
    }
}

/// Writes the token, where there is one.
fn write_sig(text: &mut Vec<u8>, sig: Option<&[u8]>) -> Result<(), AllocError>
    ensures { OnOk result (text.new.items ≡ text.old.items ++ flat_map field_text (sig_fields (option_map (λ s. s.now) sig.entry))) }
{
    match sig {
        None => Ok(()),
        Some(sig) => write_value(text, b"grip-sig", sig),
    }
}

fn write_last(text: &mut Vec<u8>, last: &Body) -> Result<(), AllocError>
    ensures { IfOk result (λ _. text.new.items ≡ text.old.items ++ field_text (last_field last.now)) }
{
    write_value(text, b"grip-last", last.bytes())
}

/// Writes one `grip-last` field for each value.
fn write_lasts(text: &mut Vec<u8>, lasts: &[Body]) -> Result<(), AllocError>
    ensures { OnOk result (text.new.items ≡ text.old.items ++ flat_map field_text (map last_field lasts.now)) }
{
    for last in lasts {
        write_last(text, last)?;
    }
    Ok(())
}

/// Writes all field lines, and the empty line behind them.
pub(crate) fn write_fields(
    alloc: Global,
    text: &mut Vec<u8>,
    fields: &[Field],
    body: Option<&[u8]>,
    address: &Address,
    sig: Option<&[u8]>,
    lasts: &[Body],
) -> Result<(), AllocError>
    ensures { OnOk result (text.new.items ≡ text.old.items ++ fields_text (forwarded_fields fields.now (option_map (λ b. b.now) body.entry) address.now (option_map (λ s. s.now) sig.entry) lasts.now)) }
{
    write_kept(text, fields)?;
    write_host(alloc, text, fields, address)?;
    write_length(alloc, text, body)?;
    write_value(text, b"connection", b"close")?;
    write_sig(text, sig)?;
    write_lasts(text, lasts)?;
    text.extend_from_slice(b"\r\n")?;
    Ok(())
}

/// Writes the body, where there is one.
pub(crate) fn write_body(text: &mut Vec<u8>, body: Option<&[u8]>) -> Result<(), AllocError>
    ensures { OnOk result (text.new.items ≡ text.old.items ++ bytes_or (option_map (λ b. b.now) body.entry)) }
{
    match body {
        None => Ok(()),
        Some(bytes) => text.extend_from_slice(bytes),
    }
}
