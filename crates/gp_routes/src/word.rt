ghost use Rattle.std.specs.Prelude.{◌≡◌, ◌<◌, ◌≤◌, ◌∷◌, [], MatchOption, length, nat_eq};
ghost use Rattle.std.specs.List.{before_first, position_or_len, prefix_len};
ghost use Rattle.std.specs.Str.Lines.{lines};
ghost use Rattle.gp_routes.specs.Words.{is_blank, is_hash, words_of};

/// The first place of a byte, or the length where it isn't there.
pub(crate) fn place_of(byte: u8, text: &[u8]) -> usize
    ensures value { result ≡ position_or_len (λ b. nat_eq b byte) text.now }
    ensures within { result ≤ length text.now }
{
    text.iter().take_while(|other| **other != byte).count()
}

/// The first line of a text that isn't empty, and what follows it. A line has neither the line feed that ends it nor
/// one carriage return before that.
pub(crate) fn cut_line(text: &[u8]) -> (&[u8], &[u8])
    requires { 0 < length text.now }
    ensures line { lines text.now ≡ result.0.now ∷ lines result.1.now }
    ensures shorter { length result.1.now < length text.now }
{
    let end = place_of(b'\n', text);
    if end == text.len() {
        return (text, &text[end..]);
    }
    let rest = &text[end + 1..];
    if end > 0 && text[end - 1] == b'\r' {
        (&text[..end - 1], rest)
    } else {
        (&text[..end], rest)
    }
}

/// A line up to its comment, which a `#` begins.
pub(crate) fn without_comment(line: &[u8]) -> &[u8]
    ensures { result.now ≡ before_first is_hash line.now }
{
    &line[..place_of(b'#', line)]
}

fn is_blank(byte: u8) -> bool
    ensures { result ≡ is_blank byte }
{
    byte == b' ' || byte == b'\t'
}

/// How many blanks stand at the front.
fn blanks_len(text: &[u8]) -> usize
    ensures value { result ≡ prefix_len is_blank text.now }
    ensures within { result ≤ length text.now }
{
    text.iter().take_while(|byte| is_blank(**byte)).count()
}

/// How many bytes that are no blanks stand at the front.
fn word_len(text: &[u8]) -> usize
    ensures value { result ≡ position_or_len is_blank text.now }
    ensures within { result ≤ length text.now }
{
    text.iter().take_while(|byte| !is_blank(**byte)).count()
}

/// The first word of a text, and what follows it, or nothing where the text has none. Blanks part words.
pub(crate) fn next_word(text: &[u8]) -> Option<(&[u8], &[u8])>
    ensures { MatchOption result (words_of text.now ≡ []) (λ cut. words_of text.now ≡ cut.0.now ∷ words_of cut.1.now) }
{
    let text = &text[blanks_len(text)..];
    if text.is_empty() {
        return None;
    }
    Some(text.split_at(word_len(text)))
}
