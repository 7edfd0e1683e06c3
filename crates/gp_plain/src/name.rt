ghost use Rattle.std.specs.Prelude.{◌≡◌, ◌≢◌, ◌<◌, ℕ, length, false, MatchResult, MatchOption, IfOk};
ghost use Rattle.gp_plain.specs.Names.{IsNameFault, IsName, IsFirstBad, is_barred, is_bad_at, same_id};
ghost use Rattle.gp_plain.specs.declared.name.NameFault.TheVariants.{NoMemory};

use crate::body::Body;
use std::alloc::{AllocError, Global};
use std::marker::Model;

/// Why bytes are no name and no id. The refusals are tried in this order.
#[derive(Clone, Copy, Drop, Debug, PartialEq)]
pub enum NameFault {
    /// There is no byte.
    Empty,
    /// There are so many bytes, more than 255.
    Long(u64),
    /// The least place of a byte that may not stand there.
    Byte(u32),
    /// Memory is wanting.
    NoMemory,
}

/// The name of a channel: 1 to 255 bytes, none of them a control (0x00 to 0x1F, 0x7F), a quotation mark,
/// a comma or a semicolon, and no space at either end.
#[derive(Drop)]
pub struct Name {
    bytes: Body,
}

impl Model for Name {
    ghost use Rattle.std.specs.Prelude.{List, ℕ};
    ghost use Rattle.gp_plain.specs.Names.{IsName};

    ghost Value = { List ℕ };

    ghost view = { λ n. n.bytes };

    ghost invariant = { λ n. IsName n.bytes };
}

/// The id of an item, in the form of a name.
#[derive(Drop)]
pub struct ItemId {
    bytes: Body,
}

impl Model for ItemId {
    ghost use Rattle.std.specs.Prelude.{List, ℕ};
    ghost use Rattle.gp_plain.specs.Names.{IsName};

    ghost Value = { List ℕ };

    ghost view = { λ n. n.bytes };

    ghost invariant = { λ n. IsName n.bytes };
}

fn is_barred(byte: u8) -> bool
    ensures { result ≡ is_barred byte }
{
    byte < 32 || byte == b'"' || byte == b',' || byte == b';' || byte == 127
}

/// The least place of a byte that no name has there.
fn first_bad(bytes: &[u8]) -> Option<usize>
    ensures { MatchOption result ((k : ℕ) → k < length bytes.now → is_bad_at bytes.now k ≡ false) (IsFirstBad bytes.now) }
{
    for (place, byte) in bytes.iter().enumerate() {
        if is_barred(*byte) || *byte == b' ' && (place == 0 || place + 1 == bytes.len()) {
            return Some(place);
        }
    }
    None
}

/// Whether bytes spell a name, or the first reason why they spell none. It takes no memory.
fn check(bytes: &[u8]) -> Result<(), NameFault>
    ensures { MatchResult result (λ done. IsName bytes.now) (λ fault. IsNameFault bytes.now fault × (fault ≢ NoMemory)) }
{
    if bytes.is_empty() {
        return Err(NameFault::Empty);
    }
    if bytes.len() > 255 {
        return Err(NameFault::Long(bytes.len() as u64));
    }
    match first_bad(bytes) {
        Some(place) => Err(NameFault::Byte(place as u32)),
        None => Ok(()),
    }
}

fn read(alloc: Global, bytes: &[u8]) -> Result<Body, NameFault>
    ensures { MatchResult result (λ n. (n ≡ bytes.now) × IsName bytes.now) (IsNameFault bytes.now) }
{
    check(bytes)?;
    match Body::new(alloc, bytes) {
        Ok(bytes) => Ok(bytes),
        Err(_) => Err(NameFault::NoMemory),
    }
}

fn taken(bytes: Vec<u8>) -> Result<Body, NameFault>
    ensures { MatchResult result (λ n. (n ≡ bytes.items) × IsName bytes.items) (λ fault. IsNameFault bytes.items fault × (fault ≢ NoMemory)) }
{
    check(bytes.as_slice())?;
    Ok(Body::from_vec(bytes))
}

impl Name {
    /// The name that bytes spell, or the first reason why they spell none.
    pub fn new(alloc: Global, bytes: &[u8]) -> Result<Name, NameFault>
        ensures { MatchResult result (λ n. (n ≡ bytes.now) × IsName bytes.now) (IsNameFault bytes.now) }
    {
        Ok(Name {
            bytes: read(alloc, bytes)?,
        })
    }

    /// The name that a `Vec`'s bytes spell, or the first reason why they spell none. It takes no memory, so `NoMemory`
    /// never comes.
    pub fn from_vec(bytes: Vec<u8>) -> Result<Name, NameFault>
        ensures { MatchResult result (λ n. (n ≡ bytes.items) × IsName bytes.items) (λ fault. IsNameFault bytes.items fault × (fault ≢ NoMemory)) }
    {
        Ok(Name {
            bytes: taken(bytes)?,
        })
    }

    /// The bytes that spell it: 1 to 255, none of which may not stand at its place.
    pub fn bytes(&self) -> &[u8]
        ensures bytes { result.now ≡ self.now }
        ensures form { IsName self.now }
    {
        self.bytes.bytes()
    }

    /// An equal name.
    pub fn copy(&self, alloc: Global) -> Result<Name, AllocError>
        ensures { IfOk result (λ n. n ≡ self.now) }
    {
        Ok(Name {
            bytes: self.bytes.copy(alloc)?,
        })
    }

    /// Whether it is the same name. Names are compared byte by byte.
    pub fn is(&self, other: &Name) -> bool
        ensures { result ≡ same_id self.now other.now }
    {
        self.bytes() == other.bytes()
    }
}

impl ItemId {
    /// The id that bytes spell, or the first reason why they spell none.
    pub fn new(alloc: Global, bytes: &[u8]) -> Result<ItemId, NameFault>
        ensures { MatchResult result (λ n. (n ≡ bytes.now) × IsName bytes.now) (IsNameFault bytes.now) }
    {
        Ok(ItemId {
            bytes: read(alloc, bytes)?,
        })
    }

    /// The id that a `Vec`'s bytes spell, or the first reason why they spell none. It takes no memory, so `NoMemory`
    /// never comes.
    pub fn from_vec(bytes: Vec<u8>) -> Result<ItemId, NameFault>
        ensures { MatchResult result (λ n. (n ≡ bytes.items) × IsName bytes.items) (λ fault. IsNameFault bytes.items fault × (fault ≢ NoMemory)) }
    {
        Ok(ItemId {
            bytes: taken(bytes)?,
        })
    }

    /// The bytes that spell it: 1 to 255, none of which may not stand at its place.
    pub fn bytes(&self) -> &[u8]
        ensures bytes { result.now ≡ self.now }
        ensures form { IsName self.now }
    {
        self.bytes.bytes()
    }

    /// An equal id.
    pub fn copy(&self, alloc: Global) -> Result<ItemId, AllocError>
        ensures { IfOk result (λ n. n ≡ self.now) }
    {
        Ok(ItemId {
            bytes: self.bytes.copy(alloc)?,
        })
    }

    /// Whether it is the same id. Ids are compared byte by byte.
    pub fn is(&self, other: &ItemId) -> bool
        ensures { result ≡ same_id self.now other.now }
    {
        self.bytes() == other.bytes()
    }
}

/// A copy of an id where there is one.
pub fn copy_id(alloc: Global, id: &Option<ItemId>) -> Result<Option<ItemId>, AllocError>
    ensures { IfOk result (λ copy. copy ≡ id.now) }
{
    match id {
        Some(id) => Ok(Some(id.copy(alloc)?)),
        None => Ok(None),
    }
}
