ghost use Rattle.std.specs.Prelude.{◌≡◌, ◌≤◌, count_by, length, true};
ghost use Rattle.std.specs.List.{before_first, list_all, list_any, position_or_len, prefix_len, suffix_len};
ghost use Rattle.std.specs.Char.{is_ascii_digit};
ghost use Rattle.std.specs.Str.Parse.{digits_value};
ghost use Rattle.gp_body.specs.Plans.{first_part, from_first, has, is_blank, is_chunked, is_comma, is_count, is_named, is_part, named, parts_are, says, to_last, trimmed};

use gp_plain::Field;

fn is_blank(byte: u8) -> bool
    ensures { result ≡ is_blank byte }
{
    byte == b' ' || byte == b'\t'
}

fn blanks_at_start(text: &[u8]) -> usize
    ensures value { result ≡ prefix_len is_blank text.now }
    ensures within { result ≤ length text.now }
{
    text.iter().take_while(|byte| is_blank(**byte)).count()
}

fn blanks_at_end(text: &[u8]) -> usize
    ensures value { result ≡ suffix_len is_blank text.now }
    ensures within { result ≤ length text.now }
{
    text.iter()
        .rev()
        .take_while(|byte| is_blank(**byte))
        .count()
}

fn from_first(text: &[u8]) -> &[u8]
    ensures { result.now ≡ from_first text.now }
{
    &text[blanks_at_start(text)..]
}

fn to_last(text: &[u8]) -> &[u8]
    ensures { result.now ≡ to_last text.now }
{
    &text[..text.len() - blanks_at_end(text)]
}

/// The text without the spaces and tabs at its ends.
fn trimmed(text: &[u8]) -> &[u8]
    ensures { result.now ≡ trimmed text.now }
{
    to_last(from_first(text))
}

fn is_named(field: &Field, name: &[u8]) -> bool
    ensures { result ≡ is_named name.now field.now }
{
    field.name.bytes() == name
}

/// Whether there is a field of this name.
pub(crate) fn has_field(fields: &[Field], name: &[u8]) -> bool
    ensures { result ≡ has name.now fields.now }
{
    fields.iter().any(|field| is_named(field, name))
}

/// How many fields there are of this name.
pub(crate) fn count_fields(fields: &[Field], name: &[u8]) -> usize
    ensures { result ≡ count_by (is_named name.now) fields.now }
{
    fields.iter().filter(|field| is_named(field, name)).count()
}

/// Whether each field of this name is `chunked` in either case.
pub(crate) fn are_chunked(fields: &[Field], name: &[u8]) -> bool
    ensures { result ≡ list_all is_chunked (named name.now fields.now) }
{
    fields
        .iter()
        .filter(|field| is_named(field, name))
        .all(|field| is_chunked(field))
}

fn is_chunked(field: &Field) -> bool
    ensures { result ≡ is_chunked field.now }
{
    field.value.bytes().eq_ignore_ascii_case(b"chunked")
}

fn comma_place(value: &[u8]) -> usize
    ensures value { result ≡ position_or_len is_comma value.now }
    ensures within { result ≤ length value.now }
{
    value.iter().take_while(|byte| **byte != b',').count()
}

fn before_comma(value: &[u8]) -> &[u8]
    ensures { result.now ≡ before_first is_comma value.now }
{
    &value[..comma_place(value)]
}

/// The first part of the first field of this name, up to a comma.
pub(crate) fn first_part<'a>(fields: &'a [Field], name: &[u8]) -> &'a [u8]
    ensures { result.now ≡ first_part (named name.now fields.now) }
{
    for field in fields {
        if is_named(field, name) {
            return trimmed(before_comma(field.value.bytes()));
        }
    }
    &[]
}

/// Whether each part of each field of this name is this text.
pub(crate) fn all_say(fields: &[Field], name: &[u8], digits: &[u8]) -> bool
    ensures { result ≡ list_all (says digits.now) (named name.now fields.now) }
{
    fields
        .iter()
        .filter(|field| is_named(field, name))
        .all(|field| says(field, digits))
}

fn says(field: &Field, digits: &[u8]) -> bool
    ensures { result ≡ says digits.now field.now }
{
    parts_are(field.value.bytes(), digits)
}

fn parts_are(value: &[u8], digits: &[u8]) -> bool
    ensures { result ≡ parts_are digits.now value.now }
{
    value
        .split(|byte| *byte == b',')
        .all(|part| is_part(part, digits))
}

fn is_part(part: &[u8], digits: &[u8]) -> bool
    ensures { result ≡ is_part digits.now part.now }
{
    trimmed(part) == digits
}

/// Whether the text is 1 to 18 digits.
pub(crate) fn is_count(digits: &[u8]) -> bool
    ensures { result ≡ is_count digits.now }
{
    !digits.is_empty() && digits.len() <= 18 && are_digits(digits)
}

fn are_digits(digits: &[u8]) -> bool
    ensures { result ≡ list_all is_ascii_digit digits.now }
{
    digits.iter().all(|byte| byte.is_ascii_digit())
}

/// The number that 1 to 18 digits write.
pub(crate) fn count_of(digits: &[u8]) -> u64
    requires { is_count digits.now ≡ true }
    ensures { result ≡ digits_value 10 digits.now }
{
    let mut count = 0u64;
    for digit in digits {
        count = count * 10 + u64::from(*digit - b'0');
    }
    count
}
