ghost use Rattle.std.specs.Prelude.{◌≡◌, ◌≤◌, length};
ghost use Rattle.std.specs.List.{position_or_len, suffix_len};
ghost use Rattle.gp_instruct.specs.Texts.{is, is_blank};
ghost use Rattle.gp_instruct_json.specs.Kinds.{gives_type, has_type, is_instruct_type};

use gp_plain::{Field, Response};

fn is_blank(byte: u8) -> bool
    ensures { result ≡ is_blank byte }
{
    byte == b' ' || byte == b'\t'
}

/// How many bytes stand before the parameters of a content type.
fn type_len(value: &[u8]) -> usize
    ensures value { result ≡ position_or_len (is 59) value.now }
    ensures within { result ≤ length value.now }
{
    value.iter().take_while(|byte| **byte != b';').count()
}

/// How many blanks stand at the end.
fn blanks_behind(text: &[u8]) -> usize
    ensures value { result ≡ suffix_len is_blank text.now }
    ensures within { result ≤ length text.now }
{
    text.iter()
        .rev()
        .take_while(|byte| is_blank(**byte))
        .count()
}

fn is_instruct_type(value: &[u8]) -> bool
    ensures { result ≡ is_instruct_type value.now }
{
    let name = &value[..type_len(value)];
    let name = &name[..name.len() - blanks_behind(name)];
    name == b"application/grip-instruct".as_slice()
}

fn gives_type(field: &Field) -> bool
    ensures { result ≡ gives_type field.now }
{
    field.name.bytes() == b"content-type".as_slice()
}

fn has_type(fields: &[Field]) -> bool
    ensures { result ≡ has_type fields.now }
{
    for field in fields {
        if gives_type(field) {
            return is_instruct_type(field.value.bytes());
        }
    }
    false
}

/// Whether the body of a response is an instruction: its first `content-type` field is `application/grip-instruct`, in
/// lower case, with parameters or without (RFC 9110, section 8.3).
pub fn is_instruct(head: &Response) -> bool
    ensures { result ≡ has_type head.now.fields }
{
    has_type(head.fields.as_slice())
}
