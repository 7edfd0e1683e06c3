//! The options of `serve`.
ghost use Rattle.std.specs.Prelude.{◌≡◌, ◌≤◌, map, string_bytes, option_map, IfOk, IfSome};
ghost use Rattle.gp_serve.specs.Options.{asked_by, choice_of, free_choice, is_free, key_of, nothing_asked, option_with, options_of, ranged, with_value};

use gp_plain::Body;
use std::alloc::{AllocError, Global};
use std::marker::Model;

/// What a server is asked for.
#[derive(Drop)]
pub struct Options {
    /// How many workers it has: 1 to 16.
    pub workers: u32,
    /// How many sessions it serves: 1 to 100,000.
    pub sessions: u32,
    /// The port of its clients: 1 to 65,535.
    pub client: u16,
    /// The port of its publishers: 1 to 65,535.
    pub publish: u16,
    /// What it signs its requests to origins with, where it does: 1 to 255 bytes.
    pub key: Option<Body>,
}

/// An option's name.
#[derive(Clone, Copy, Drop)]
pub(crate) enum Choice {
    /// `--workers`.
    Workers,
    /// `--sessions`.
    Sessions,
    /// `--client`.
    Client,
    /// `--publish`.
    Publish,
    /// `--key`.
    Key,
}

/// What was given of each option.
#[derive(Drop)]
pub struct Asked<'a> {
    workers: Option<u32>,
    sessions: Option<u32>,
    client: Option<u16>,
    publish: Option<u16>,
    key: Option<&'a [u8]>,
}

impl<'a> Model for Asked<'a> {
    ghost use Rattle.std.specs.Prelude.{◌≤◌, IfSome, option_map};
    ghost use Rattle.gp_serve.specs.Options.{Asked};

    ghost Value = { Asked };

    ghost invariant = { λ a. IfSome a.workers (λ n. n ≤ 16) };

    ghost view = { λ a. record { workers = a.workers; sessions = a.sessions; client = a.client; publish = a.publish; key = option_map (λ key. key.now) a.key } };
}

/// The number that a word is, from 1 to the greatest.
fn ranged(most: u32, word: &[u8]) -> Option<u32>
    requires { most ≤ 100000 }
    ensures value { result ≡ ranged most word.now }
    ensures most { IfSome result (λ number. number ≤ most) }
{
    if word.is_empty() || word[0] == b'0' {
        return None;
    }
    let mut number = 0u32;
    for digit in word {
        if !digit.is_ascii_digit() {
            return None;
        }
        number = number * 10 + u32::from(*digit - b'0');
        if number > most {
            return None;
        }
    }
    Some(number)
}

/// The port that a word is.
fn port(word: &[u8]) -> Option<u16>
    ensures { result ≡ ranged 65535 word.now }
{
    match ranged(65535, word) {
        Some(number) => Some(number as u16),
        None => None,
    }
}

/// The key that a word is.
fn key_of(word: &[u8]) -> Option<&[u8]>
    ensures { option_map (λ key. key.now) result ≡ key_of word.now }
{
    if word.is_empty() || word.len() > 255 {
        None
    } else {
        Some(word)
    }
}

/// The option that a word names.
fn choice_of(word: &[u8]) -> Option<Choice>
    ensures { result ≡ choice_of word.now }
{
    if word == b"--workers".as_slice() {
        return Some(Choice::Workers);
    }
    if word == b"--sessions".as_slice() {
        return Some(Choice::Sessions);
    }
    if word == b"--client".as_slice() {
        return Some(Choice::Client);
    }
    if word == b"--publish".as_slice() {
        return Some(Choice::Publish);
    }
    if word == b"--key".as_slice() {
        return Some(Choice::Key);
    }
    None
}

impl<'a> Asked<'a> {
    /// Nothing was given.
    pub fn nothing() -> Asked<'a>
        ensures { result ≡ nothing_asked }
    {
        Asked {
            workers: None,
            sessions: None,
            client: None,
            publish: None,
            key: None,
        }
    }

    /// Whether an option wasn't given yet.
    fn is_free(&self, choice: Choice) -> bool
        ensures { result ≡ is_free self.now choice }
    {
        match choice {
            Choice::Workers => self.workers.is_none(),
            Choice::Sessions => self.sessions.is_none(),
            Choice::Client => self.client.is_none(),
            Choice::Publish => self.publish.is_none(),
            Choice::Key => self.key.is_none(),
        }
    }

    /// The option that a word names, where it wasn't given yet.
    fn free_choice(&self, word: &[u8]) -> Option<Choice>
        ensures { result ≡ free_choice word.now self.now }
    {
        let choice = choice_of(word)?;
        if self.is_free(choice) {
            Some(choice)
        } else {
            None
        }
    }

    /// With a value of an option.
    fn with(mut self, choice: Choice, word: &'a [u8]) -> Option<Asked<'a>>
        ensures { result ≡ with_value self.entry choice word.now }
    {
        match choice {
            Choice::Workers => self.workers = Some(ranged(16, word)?),
            Choice::Sessions => self.sessions = Some(ranged(100000, word)?),
            Choice::Client => self.client = Some(port(word)?),
            Choice::Publish => self.publish = Some(port(word)?),
            Choice::Key => self.key = Some(key_of(word)?),
        }
        Some(self)
    }

    /// With the option that stands at a place, and the value behind it.
    fn with_option(self, place: u32, name: &[u8], value: &'a [u8]) -> Result<Asked<'a>, u32>
        ensures { result ≡ option_with place self.entry (free_choice name.now self.entry) value.now }
    {
        match self.free_choice(name) {
            None => Err(place),
            Some(choice) => match self.with(choice, value) {
                Some(asked) => Ok(asked),
                None => Err(place.saturating_add(1)),
            },
        }
    }

    /// What the words from a place on ask beside this, or the place of the first word after which no continuation is in
    /// the grammar, or that behind the words where one is missing.
    pub fn read(self, place: u32, words: &'a [String]) -> Result<Asked<'a>, u32>
        ensures { result ≡ asked_by place (map string_bytes words.now) self.entry }
    {
        match words {
            [] => Ok(self),
            [name] => match self.free_choice(name.as_bytes()) {
                None => Err(place),
                Some(_) => Err(place.saturating_add(1)),
            },
            [name, value, rest @ ..] => {
                let asked = self.with_option(place, name.as_bytes(), value.as_bytes())?;
                asked.read(place.saturating_add(2), rest)
            }
        }
    }

    /// The options, with the default of each that wasn't given. A key is copied.
    pub fn options(self, alloc: Global) -> Result<Options, AllocError>
        ensures value { IfOk result (λ options. options ≡ options_of self.entry) }
        ensures workers { IfOk result (λ options. options.workers ≤ 16) }
    {
        let key = match self.key {
            Some(key) => Some(Body::new(alloc, key)?),
            None => None,
        };
        Ok(Options {
            workers: self.workers.unwrap_or(4),
            sessions: self.sessions.unwrap_or(100000),
            client: self.client.unwrap_or(7999),
            publish: self.publish.unwrap_or(5561),
            key,
        })
    }
}
