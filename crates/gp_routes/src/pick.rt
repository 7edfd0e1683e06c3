ghost use Rattle.std.specs.Prelude.{◌≡◌, ◌-◌, ◌≤◌, IfSome, length, nat_eq, nat_lt, not, option_map};
ghost use Rattle.std.specs.List.{list_all, list_any, suffix_len};
ghost use Rattle.std.specs.Char.{is_ascii_digit};
ghost use Rattle.gp_routes.specs.Rules.{IsRoute};
ghost use Rattle.gp_routes.specs.Picks.{picked, is_met, host_name};

use crate::route::{Condition, Route, Routes};

impl Routes {
    /// The route of the first line that matches, or nothing exactly where none does. `host` is the value of the
    /// request's first `host` field as it came, or no byte where there is none; its `:port` isn't compared, and either
    /// case of ASCII is the same. `path` is path and query. The route has a host by name and a port that isn't 0. It takes
    /// no memory, and looks at each line at most once.
    pub fn pick(&self, host: &[u8], path: &[u8]) -> Option<&Route>
        ensures picked { option_map (λ route. route.now) result ≡ picked host.now path.now self.now }
        ensures route { IfSome result (λ route. IsRoute route.now) }
    {
        let name = host_name(host);
        for rule in self.rules.as_slice() {
            if is_met(&rule.condition, name, path) {
                return Some(&rule.route);
            }
        }
        None
    }
}

/// Whether a request for this host, without its port, and this path meets the condition.
fn is_met(condition: &Condition, name: &[u8], path: &[u8]) -> bool
    ensures { result ≡ is_met name.now path.now condition.now }
{
    let host = match &condition.host {
        Some(host) => host.bytes().eq_ignore_ascii_case(name),
        None => true,
    };
    host && path.starts_with(condition.path.bytes())
}

/// A host field without its port: the last colon and what follows it, where only digits or nothing follow.
fn host_name(host: &[u8]) -> &[u8]
    ensures { result.now ≡ host_name host.now }
{
    let behind = behind_last(b':', host);
    if behind > 0 && are_digits(&host[behind..]) {
        &host[..behind - 1]
    } else {
        host
    }
}

/// The place behind the last such byte, or 0 where there is none.
fn behind_last(byte: u8, text: &[u8]) -> usize
    ensures within { result ≤ length text.now }
    ensures value { result ≡ length text.now - suffix_len (λ b. not (nat_eq b byte)) text.now }
    ensures found { nat_lt 0 result ≡ list_any (λ b. nat_eq b byte) text.now }
{
    let mut behind = text.len();
    while behind > 0 && text[behind - 1] != byte {
        behind -= 1;
    }
    behind
}

fn are_digits(text: &[u8]) -> bool
    ensures { result ≡ list_all is_ascii_digit text.now }
{
    text.iter().all(|byte| byte.is_ascii_digit())
}
