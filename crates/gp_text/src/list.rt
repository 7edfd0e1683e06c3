ghost use Rattle.std.specs.Prelude.{◌≡◌, option_map};
ghost use Rattle.gp_text.specs.Lists.{first_value, has_field, has_part, is_named, is_part, lists, lists_word};

use crate::word::{is_same, trimmed};
use gp_plain::Field;

/// Whether the field has this name. Names are in lower case.
pub fn is_named(field: &Field, name: &[u8]) -> bool
    ensures { result ≡ is_named name.now field.now }
{
    field.name.bytes() == name
}

/// Whether there is a field of this name.
pub fn has_field(fields: &[Field], name: &[u8]) -> bool
    ensures { result ≡ has_field name.now fields.now }
{
    fields.iter().any(|field| is_named(field, name))
}

/// The value of the first field of this name. It takes no memory.
pub fn first_value<'a>(fields: &'a [Field], name: &[u8]) -> Option<&'a [u8]>
    ensures { option_map (λ value. value.now) result ≡ first_value name.now fields.now }
{
    for field in fields {
        if is_named(field, name) {
            return Some(field.value.bytes());
        }
    }
    None
}

/// Whether some part of the value between commas is this word, in either case and but for spaces and tabs round it.
pub fn lists_word(value: &[u8], word: &[u8]) -> bool
    ensures { result ≡ lists_word word.now value.now }
{
    value
        .split(|byte| *byte == b',')
        .any(|part| is_part(part, word))
}

fn is_part(part: &[u8], word: &[u8]) -> bool
    ensures { result ≡ is_part word.now part.now }
{
    is_same(trimmed(part), word)
}

fn lists(field: &Field, word: &[u8]) -> bool
    ensures { result ≡ lists word.now field.now }
{
    lists_word(field.value.bytes(), word)
}

/// Whether some field of this name lists the word, as `connection: keep-alive, Upgrade` lists `upgrade`.
pub fn has_part(fields: &[Field], name: &[u8], word: &[u8]) -> bool
    ensures { result ≡ has_part name.now word.now fields.now }
{
    fields
        .iter()
        .filter(|field| is_named(field, name))
        .any(|field| lists(field, word))
}
