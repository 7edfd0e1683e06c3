ghost use Rattle.std.specs.Prelude.{◌≡◌, MatchOption, None, Some};
ghost use Rattle.std.specs.List.{list_all};
ghost use Rattle.gp_routes.specs.Parts.{condition_named, condition_of, is_host, is_host_byte, port_of, route_of, route_to};

use crate::word::place_of;

fn is_host_byte(byte: u8) -> bool
    ensures { result ≡ is_host_byte byte }
{
    byte.is_ascii_alphanumeric() || byte == b'.' || byte == b'-'
}

/// Whether the bytes are the name of a host: letters, digits, `.` and `-`.
fn is_host(name: &[u8]) -> bool
    ensures { result ≡ is_host name.now }
{
    !name.is_empty() && are_host_bytes(name)
}

fn are_host_bytes(name: &[u8]) -> bool
    ensures { result ≡ list_all is_host_byte name.now }
{
    name.iter().all(|byte| is_host_byte(*byte))
}

/// The name and the path of a condition: `*` or a host, and then optionally `,path_beg=` and a path that begins with
/// `/`. The path has no byte where there is none.
#[tactic(auto, unfolding(crate::specs::Parts::condition_of))]
pub(crate) fn split_condition(word: &[u8]) -> Option<(&[u8], &[u8])>
    ensures { MatchOption result (condition_of word.now ≡ None) (λ parts. condition_of word.now ≡ Some (condition_named parts.0.now parts.1.now)) }
{
    let (name, option) = word.split_at(place_of(b',', word));
    if name != b"*".as_slice() && !is_host(name) {
        return None;
    }
    if option.is_empty() {
        return Some((name, option));
    }
    if option.starts_with(b",path_beg=/") {
        Some((name, &option[10..]))
    } else {
        None
    }
}

/// The host and the port of a target, and whether it ends with `,over_http`.
#[tactic(auto, unfolding(crate::specs::Parts::route_of, crate::specs::Parts::port_of))]
pub(crate) fn split_route(word: &[u8]) -> Option<(&[u8], u16, bool)>
    ensures { MatchOption result (route_of word.now ≡ None) (λ parts. route_of word.now ≡ Some (route_to parts.0.now parts.1 parts.2)) }
{
    let end = place_of(b':', word);
    if end == word.len() {
        return None;
    }
    if !is_host(&word[..end]) {
        return None;
    }
    let rest = &word[end + 1..];
    let (digits, option) = rest.split_at(place_of(b',', rest));
    let port = read_port(digits)?;
    if option.is_empty() || option == b",over_http".as_slice() {
        Some((&word[..end], port, !option.is_empty()))
    } else {
        None
    }
}

/// The port that decimal digits spell: 1 to 65,535, without a leading zero.
#[tactic(auto, unfolding(crate::specs::Parts::port_of))]
fn read_port(digits: &[u8]) -> Option<u16>
    ensures { result ≡ port_of digits.now }
{
    if digits.is_empty() || digits[0] == b'0' {
        return None;
    }
    let mut port = 0u32;
    for digit in digits {
        if !digit.is_ascii_digit() {
            return None;
        }
        port = port * 10 + u32::from(*digit - b'0');
        if port > 65535 {
            return None;
        }
    }
    Some(port as u16)
}
