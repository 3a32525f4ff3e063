// Options, key=value, each at most once, into a lent list of the keys' values.
ghost use Rattle.std.specs.Prelude.{◌≡◌, ◌≤◌, ◌<◌};
ghost use Rattle.text.specs.Split.{words};
ghost use Rattle.lines.specs.Option as Option;
ghost use Rattle.lines.specs.Key.{key_count};

use super::Expected;
use super::key::{KEY_COUNT, KEYS};
use stream::{MOST_NUMBERS, MOST_OCTETS};
use values::address::ipv4;
use values::reading::{double, number, reading, up_to};
use values::waiting::waiting;

// How a value is spelt.
#[derive(Clone, Copy, Debug, PartialEq, Eq)]
pub enum Spelling {
    Number,
    Reading,
    Double,
    Address,
    Board,
    Attenuation,
    Waiting,
}

// The most octets of a lent packet buffer.
const MOST_BUFFER: u64 = 8192;

// How an attenuation is spelt.
const CHOICES: [u8; 13] = *b"off on unsaid";

// How each key's value is spelt, and the most that it can be (specs/Option). The values stand as numbers in one list: a board that
// discovery skipped is one more than a board's number can be, and an attenuation is its place among the choices.
const FORMS: [(Spelling, u64); KEY_COUNT] = [
    (Spelling::Number, MOST_BUFFER),
    (Spelling::Waiting, MOST_NUMBERS as u64),
    (Spelling::Number, MOST_OCTETS as u64),
    (Spelling::Number, u16::MAX as u64),
    (Spelling::Number, u16::MAX as u64),
    (Spelling::Reading, u64::MAX),
    (Spelling::Number, u16::MAX as u64),
    (Spelling::Number, u16::MAX as u64),
    (Spelling::Double, u64::MAX),
    (Spelling::Double, u64::MAX),
    (Spelling::Number, u16::MAX as u64),
    (Spelling::Address, u32::MAX as u64),
    (Spelling::Board, u8::MAX as u64 + 1),
    (Spelling::Attenuation, 2),
    (Spelling::Reading, u64::MAX),
    (Spelling::Reading, u64::MAX),
    (Spelling::Number, u64::MAX),
    (Spelling::Number, u32::MAX as u64),
];

// Why a word is not taken: a key's place goes with a value that can't be read.
#[derive(Clone, Copy, Debug, PartialEq, Eq)]
pub enum Untaken {
    Unknown,
    Unreadable(u8),
}

impl Untaken {
    // What was expected of the word, where `other` is expected in place of an unknown one.
    pub(crate) fn expected(self, other: Expected) -> Expected
        ensures { result ≡ Option.expected_of self other }
    {
        match self {
            Untaken::Unknown => other,
            Untaken::Unreadable(key) => Expected::ValueOf(key),
        }
    }
}

fn board(w: &[u8]) -> Option<u64>
    ensures { result ≡ Option.board w.now }
{
    if w == b"skipped".as_slice() {
        return Some(u8::MAX as u64 + 1);
    }
    number(w, u8::MAX as u64)
}

fn attenuation(w: &[u8]) -> Option<u64>
    ensures { result ≡ Option.attenuation w.now }
{
    Some(text::place_of(w, &CHOICES)? as u64)
}

fn spelt_as(how: Spelling, w: &[u8], numbers: &mut [u32; MOST_NUMBERS]) -> Option<u64>
    ensures { (result ≡ Option.spelt_as how w.now) ×
        (numbers.new ≡ Option.numbers_seen_as how w.now numbers.old) }
{
    match how {
        Spelling::Number => text::digits(w, 10),
        Spelling::Reading => reading(w),
        Spelling::Double => double(w),
        Spelling::Address => ipv4(w),
        Spelling::Board => board(w),
        Spelling::Attenuation => attenuation(w),
        Spelling::Waiting => waiting(w, numbers),
    }
}

fn value(key: usize, w: &[u8], numbers: &mut [u32; MOST_NUMBERS]) -> Option<u64>
    requires { key < key_count }
    ensures { (result ≡ Option.value_of key w.now) ×
        (numbers.new ≡ Option.numbers_seen_for key w.now numbers.old) }
{
    let (how, most) = FORMS[key];
    up_to(spelt_as(how, w, numbers), most)
}

fn take_option(
    w: &[u8],
    from: usize,
    to: usize,
    values: &mut [Option<u64>; KEY_COUNT],
    numbers: &mut [u32; MOST_NUMBERS],
) -> Result<(), Untaken>
    requires { to ≤ key_count }
    ensures { Option.Stepped from to values.old numbers.old w.now result values.new
        numbers.new }
{
    let equals = text::find(w, b'=');
    if w.len() <= equals {
        return Err(Untaken::Unknown);
    }
    let key = text::place_of(&w[..equals], &KEYS).ok_or(Untaken::Unknown)?;
    if key < from {
        return Err(Untaken::Unknown);
    }
    if to <= key {
        return Err(Untaken::Unknown);
    }
    if values[key].is_some() {
        return Err(Untaken::Unknown);
    }
    let start = equals + 1;
    let v = value(key, &w[start..], numbers).ok_or(Untaken::Unreadable(key as u8))?;
    values[key] = Some(v);
    Ok(())
}

// A run of words: what it came to, and what is left, from the word on at which it stopped.
#[derive(Clone, Copy)]
pub(crate) struct Run<'a> {
    pub(crate) took: Result<(), Untaken>,
    pub(crate) left: &'a [u8],
}

// The words of s. It goes from word to word, since what is left where a run stops is told.
pub(crate) fn options<'a>(
    s: &'a [u8],
    from: usize,
    to: usize,
    values: &mut [Option<u64>; KEY_COUNT],
    numbers: &mut [u32; MOST_NUMBERS],
) -> Run<'a>
    requires { to ≤ key_count }
    ensures { Option.Ran from to values.old numbers.old (words s.now) result.took values.new numbers.new ×
        (words result.left.now ≡ Option.options_rest from to values.old (words s.now)) }
{
    let mut left = s;
    while let Some((word, rest)) = text::split_word(left) {
        let took = take_option(word, from, to, &mut *values, &mut *numbers);
        if took.is_err() {
            return Run { took, left };
        }
        left = rest;
    }
    Run { took: Ok(()), left }
}
