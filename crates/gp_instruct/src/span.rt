ghost use Rattle.std.specs.Prelude.{◌≡◌, ◌≤◌, length};
ghost use Rattle.gp_instruct.specs.Links.{part};

/// A part of a text, by the places of its first byte and of the byte behind it.
#[derive(Clone, Copy, Drop)]
pub(crate) struct Span {
    pub from: usize,
    pub to: usize,
}

impl Span {
    /// The part of the text. What lies beyond the text's end has no byte.
    pub fn of(self, text: &[u8]) -> &[u8]
        ensures { result.now ≡ part text.now self }
    {
        let to = self.to.min(text.len());
        let from = self.from.min(to);
        &text[from..to]
    }
}
