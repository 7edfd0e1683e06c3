ghost use Rattle.std.specs.Prelude.{◌≡◌, ◌<◌, ◌∷◌, [], IfSome, MatchOption, length};
ghost use Rattle.gp_instruct.specs.Fields.{is_given, is_instruction, values};

use gp_plain::Field;

/// The value of the first field of a name, and the fields behind it.
pub(crate) fn next_value<'a>(fields: &'a [Field], name: &[u8]) -> Option<(&'a [u8], &'a [Field])>
    ensures found { MatchOption result (values name.now fields.now ≡ []) (λ next. values name.now fields.now ≡ next.0.now ∷ values name.now next.1.now) }
    ensures shorter { IfSome result (λ next. length next.1.now < length fields.now) }
{
    for (place, field) in fields.iter().enumerate() {
        if field.name.bytes() == name {
            return Some((field.value.bytes(), &fields[place + 1..]));
        }
    }
    None
}

fn is_instruction(name: &[u8]) -> bool
    ensures { result ≡ is_instruction name.now }
{
    name == b"grip-hold".as_slice()
        || name == b"grip-channel".as_slice()
        || name == b"grip-link".as_slice()
        || name == b"grip-status".as_slice()
}

/// Whether some field gives an instruction.
pub(crate) fn is_given(fields: &[Field]) -> bool
    ensures { result ≡ is_given fields.now }
{
    fields
        .iter()
        .any(|field| is_instruction(field.name.bytes()))
}
