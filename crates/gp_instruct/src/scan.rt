ghost use Rattle.std.specs.Prelude.{◌≡◌, ◌<◌};
ghost use Rattle.gp_instruct.specs.Links as links;

use crate::span::Span;
use crate::text::is_blank;

/// Where in a list of links a byte stands. What may follow, from left to right:
///
/// ```text
/// Link -<-> Uri ->-> Behind -;-> Parameter -> Name -=-> Value -> Bare or Quoted -> Behind -,-> Link
/// ```
///
/// A name needs no value; blanks behind it lead to `Named`, where `=` may still come.
#[derive(Clone, Copy, Drop)]
pub(crate) enum Spot {
    /// Before the `<` of a link.
    Link,
    /// Between the angle brackets, in a URI that begins at a place.
    Uri { from: usize },
    /// Behind the angle brackets, or behind a parameter with a value.
    Behind,
    /// Behind a semicolon, before the name of a parameter.
    Parameter,
    /// In a name that begins at a place.
    Name { from: usize },
    /// Behind a name and a blank. It says whether the name is `rel`.
    Named { is_rel: bool },
    /// Behind `=`, before the value.
    Value { is_rel: bool },
    /// In a value without quotation marks, which begins at a place.
    Bare { is_rel: bool, from: usize },
    /// In a value between quotation marks, which begins at a place.
    Quoted { is_rel: bool, from: usize },
}

/// What was read of a list of links up to a byte.
#[derive(Clone, Copy, Drop)]
pub(crate) struct Scan {
    pub spot: Spot,
    /// The URI of the present link.
    pub uri: Span,
    /// The first URI whose relation is `next`.
    pub next: Option<Span>,
}

fn is_name_byte(byte: u8) -> bool
    ensures { result ≡ links.is_name_byte byte }
{
    byte.is_ascii_alphanumeric() || byte == b'-' || byte == b'*'
}

fn is_bare_byte(byte: u8) -> bool
    ensures { result ≡ links.is_bare_byte byte }
{
    !(is_blank(byte) || byte == b',' || byte == b';' || byte == b'"')
}

impl Scan {
    /// Nothing was read.
    pub fn start() -> Scan
        ensures { result ≡ links.start }
    {
        Scan {
            spot: Spot::Link,
            uri: Span { from: 0, to: 0 },
            next: None,
        }
    }

    fn at(self, spot: Spot) -> Scan
        ensures { result ≡ links.at spot self }
    {
        Scan { spot, ..self }
    }

    /// What a byte at a place leads to, or nothing where the form can't go on with it.
    pub fn step(self, value: &[u8], place: usize, byte: u8) -> Option<Scan>
        requires { place < usize.MAX }
        ensures { result ≡ links.step value.now place byte self }
    {
        match self.spot {
            Spot::Link => self.before_link(place, byte),
            Spot::Uri { from } => Some(self.in_uri(from, place, byte)),
            Spot::Behind => self.behind(byte),
            Spot::Parameter => self.before_name(place, byte),
            Spot::Name { from } => self.in_name(value, from, place, byte),
            Spot::Named { is_rel } => self.behind_name(is_rel, byte),
            Spot::Value { is_rel } => self.before_value(is_rel, place, byte),
            Spot::Bare { is_rel, from } => self.in_bare(value, is_rel, from, place, byte),
            Spot::Quoted { is_rel, from } => {
                Some(self.in_quoted(value, is_rel, from, place, byte))
            }
        }
    }

    fn before_link(self, place: usize, byte: u8) -> Option<Scan>
        requires { place < usize.MAX }
        ensures { result ≡ links.before_link place byte self }
    {
        if is_blank(byte) {
            Some(self)
        } else if byte == b'<' {
            Some(self.at(Spot::Uri { from: place + 1 }))
        } else {
            None
        }
    }

    fn in_uri(self, from: usize, place: usize, byte: u8) -> Scan
        ensures { result ≡ links.in_uri from place byte self }
    {
        if byte == b'>' {
            Scan {
                spot: Spot::Behind,
                uri: Span { from, to: place },
                ..self
            }
        } else {
            self
        }
    }

    /// A semicolon begins a parameter, and a comma the next link.
    fn separated(self, byte: u8) -> Option<Scan>
        ensures { result ≡ links.separated byte self }
    {
        if byte == b';' {
            Some(self.at(Spot::Parameter))
        } else if byte == b',' {
            Some(self.at(Spot::Link))
        } else {
            None
        }
    }

    fn behind(self, byte: u8) -> Option<Scan>
        ensures { result ≡ links.behind byte self }
    {
        if is_blank(byte) {
            Some(self.at(Spot::Behind))
        } else {
            self.separated(byte)
        }
    }

    fn before_name(self, place: usize, byte: u8) -> Option<Scan>
        ensures { result ≡ links.before_name place byte self }
    {
        if is_blank(byte) {
            Some(self)
        } else if is_name_byte(byte) {
            Some(self.at(Spot::Name { from: place }))
        } else {
            None
        }
    }

    fn in_name(self, value: &[u8], from: usize, place: usize, byte: u8) -> Option<Scan>
        ensures { result ≡ links.in_name value.now from place byte self }
    {
        if is_name_byte(byte) {
            return Some(self);
        }
        let name = Span { from, to: place };
        self.behind_name(name.of(value) == b"rel".as_slice(), byte)
    }

    fn behind_name(self, is_rel: bool, byte: u8) -> Option<Scan>
        ensures { result ≡ links.behind_name is_rel byte self }
    {
        if is_blank(byte) {
            Some(self.at(Spot::Named { is_rel }))
        } else if byte == b'=' {
            Some(self.at(Spot::Value { is_rel }))
        } else {
            self.separated(byte)
        }
    }

    fn before_value(self, is_rel: bool, place: usize, byte: u8) -> Option<Scan>
        requires { place < usize.MAX }
        ensures { result ≡ links.before_value is_rel place byte self }
    {
        if is_blank(byte) {
            Some(self)
        } else if byte == b'"' {
            let from = place + 1;
            Some(self.at(Spot::Quoted { is_rel, from }))
        } else if is_bare_byte(byte) {
            Some(self.at(Spot::Bare {
                is_rel,
                from: place,
            }))
        } else {
            None
        }
    }

    fn in_bare(
        self,
        value: &[u8],
        is_rel: bool,
        from: usize,
        place: usize,
        byte: u8,
    ) -> Option<Scan>
        ensures { result ≡ links.in_bare value.now is_rel from place byte self }
    {
        if is_bare_byte(byte) {
            Some(self)
        } else {
            self.valued(value, is_rel, Span { from, to: place })
                .behind(byte)
        }
    }

    fn in_quoted(self, value: &[u8], is_rel: bool, from: usize, place: usize, byte: u8) -> Scan
        ensures { result ≡ links.in_quoted value.now is_rel from place byte self }
    {
        if byte == b'"' {
            let text = Span { from, to: place };
            self.valued(value, is_rel, text).at(Spot::Behind)
        } else {
            self
        }
    }

    /// A parameter has its value. The first link whose `rel` is `next` is taken.
    fn valued(self, value: &[u8], is_rel: bool, text: Span) -> Scan
        ensures { result ≡ links.valued value.now is_rel text self }
    {
        if self.next.is_none() && is_rel && text.of(value) == b"next".as_slice() {
            Scan {
                next: Some(self.uri),
                ..self
            }
        } else {
            self
        }
    }

    /// The link that is taken, at the end of the value, or nothing in `Err` where the form isn't whole.
    fn ended(self, value: &[u8]) -> Option<Scan>
        ensures { result ≡ links.ended value.now self }
    {
        match self.spot {
            Spot::Behind | Spot::Name { .. } | Spot::Named { .. } => Some(self),
            Spot::Bare { is_rel, from } => {
                let to = value.len();
                Some(self.valued(value, is_rel, Span { from, to }))
            }
            Spot::Link
            | Spot::Uri { .. }
            | Spot::Parameter
            | Spot::Value { .. }
            | Spot::Quoted { .. } => None,
        }
    }
}

/// Reads a list of links: the place of the first URI whose relation is `next`, where there is one, or the place at
/// which the form can't go on. It looks at each byte once.
pub(crate) fn find_next(value: &[u8]) -> Result<Option<Span>, usize>
    ensures { result ≡ links.scanned value.now }
{
    let mut scan = Scan::start();
    for (place, byte) in value.iter().enumerate() {
        match scan.step(value, place, *byte) {
            Some(next) => scan = next,
            None => return Err(place),
        }
    }
    match scan.ended(value) {
        Some(scan) => Ok(scan.next),
        None => Err(value.len()),
    }
}
