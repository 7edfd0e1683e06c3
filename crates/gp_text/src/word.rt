ghost use Rattle.std.specs.Prelude.{◌≡◌, ◌≤◌, length};
ghost use Rattle.std.specs.List.{prefix_len, suffix_len};
ghost use Rattle.gp_text.specs.Words.{from_first, is_blank, is_same, to_last, trimmed};

/// A space or a tab.
pub fn is_blank(byte: u8) -> bool
    ensures { result ≡ is_blank byte }
{
    byte == b' ' || byte == b'\t'
}

/// How many blanks stand at the start.
fn blanks_at_start(text: &[u8]) -> usize
    ensures value { result ≡ prefix_len is_blank text.now }
    ensures within { result ≤ length text.now }
{
    text.iter().take_while(|byte| is_blank(**byte)).count()
}

/// How many blanks stand at the end.
fn blanks_at_end(text: &[u8]) -> usize
    ensures value { result ≡ suffix_len is_blank text.now }
    ensures within { result ≤ length text.now }
{
    text.iter()
        .rev()
        .take_while(|byte| is_blank(**byte))
        .count()
}

fn from_first(text: &[u8]) -> &[u8]
    ensures { result.now ≡ from_first text.now }
{
    &text[blanks_at_start(text)..]
}

fn to_last(text: &[u8]) -> &[u8]
    ensures { result.now ≡ to_last text.now }
{
    &text[..text.len() - blanks_at_end(text)]
}

/// The text without the spaces and tabs at its ends. It takes no memory.
pub fn trimmed(text: &[u8]) -> &[u8]
    ensures { result.now ≡ trimmed text.now }
{
    to_last(from_first(text))
}

/// Whether two texts are the same in either case of ASCII.
pub fn is_same(a: &[u8], b: &[u8]) -> bool
    ensures { result ≡ is_same a.now b.now }
{
    a.eq_ignore_ascii_case(b)
}
