ghost use Rattle.std.specs.Prelude.{◌≡◌, ◌<◌, ◌≤◌, IfSome, length, option_map};
ghost use Rattle.std.specs.List.{before_first, position_or_len, prefix_len, suffix_len};
ghost use Rattle.gp_instruct.specs.Texts.{behind, is, is_blank, trimmed};

/// A space or a tab.
pub(crate) fn is_blank(byte: u8) -> bool
    ensures { result ≡ is_blank byte }
{
    byte == b' ' || byte == b'\t'
}

/// How many blanks stand at the front.
fn blanks_before(text: &[u8]) -> usize
    ensures value { result ≡ prefix_len is_blank text.now }
    ensures within { result ≤ length text.now }
{
    text.iter().take_while(|byte| is_blank(**byte)).count()
}

/// How many blanks stand at the end.
fn blanks_behind(text: &[u8]) -> usize
    ensures value { result ≡ suffix_len is_blank text.now }
    ensures within { result ≤ length text.now }
{
    text.iter()
        .rev()
        .take_while(|byte| is_blank(**byte))
        .count()
}

/// A text without the blanks at its ends.
pub(crate) fn trimmed(text: &[u8]) -> &[u8]
    ensures { result.now ≡ trimmed text.now }
{
    let text = &text[blanks_before(text)..];
    &text[..text.len() - blanks_behind(text)]
}

/// The first place of a byte, or the length where it isn't there.
fn place_of(byte: u8, text: &[u8]) -> usize
    ensures value { result ≡ position_or_len (is byte) text.now }
    ensures within { result ≤ length text.now }
{
    text.iter().take_while(|other| **other != byte).count()
}

/// What stands before the first such byte, and what stands behind it where it is there.
pub(crate) fn cut(text: &[u8], mark: u8) -> (&[u8], Option<&[u8]>)
    ensures front { result.0.now ≡ before_first (is mark) text.now }
    ensures rest { option_map (λ rest. rest.now) result.1 ≡ behind mark text.now }
    ensures shorter { IfSome result.1 (λ rest. length rest.now < length text.now) }
{
    let place = place_of(mark, text);
    if place < text.len() {
        (&text[..place], Some(&text[place + 1..]))
    } else {
        (text, None)
    }
}
