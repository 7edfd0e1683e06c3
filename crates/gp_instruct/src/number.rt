ghost use Rattle.std.specs.Prelude.{◌≡◌, ◌≤◌, length};
ghost use Rattle.gp_instruct.specs.Numbers.{number_of, seconds_of, status_of};

/// The number that at most 9 decimal digits write. No digit writes 0.
fn number(digits: &[u8]) -> Option<u32>
    requires { length digits.now ≤ 9 }
    ensures { result ≡ number_of digits.now }
{
    let mut number = 0u32;
    for digit in digits {
        if !digit.is_ascii_digit() {
            return None;
        }
        number = number * 10 + u32::from(*digit - b'0');
    }
    Some(number)
}

/// The seconds that a text writes in 1 to 9 digits.
pub(crate) fn seconds(text: &[u8]) -> Option<u32>
    ensures { result ≡ seconds_of text.now }
{
    if text.is_empty() || text.len() > 9 {
        return None;
    }
    number(text)
}

/// The status, 200 to 599, that a text writes in three digits. A space and any bytes may follow them.
pub(crate) fn status(text: &[u8]) -> Option<u16>
    ensures { result ≡ status_of text.now }
{
    if text.len() < 3 || text.len() > 3 && text[3] != b' ' {
        return None;
    }
    let code = number(&text[..3])?;
    if 200 <= code && code <= 599 {
        Some(code as u16)
    } else {
        None
    }
}
