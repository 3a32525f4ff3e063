// Where the reading of a line stops: the line is read again, and nothing of it is kept.
ghost use Rattle.std.specs.Prelude.{◌≡◌};
ghost use Rattle.text.specs.Split.{words};
ghost use Rattle.lines.specs.Found as Found;

use super::argument::arguments;
use super::key::{BUFFER, KEY_COUNT, SETTINGS, WORD_COUNT};
use super::name::{Name, begins};
use super::option::options;
use stream::{MOST_NUMBERS, MOST_OCTETS};
use text::split_word;

// What is left of the words behind a name, from the one on that can't be read.
fn unread(s: &[u8], name: Name) -> &[u8]
    ensures { words result.now ≡ Found.rest_named name (words s.now) }
{
    let mut keys: [Option<u64>; KEY_COUNT] = [None; KEY_COUNT];
    let mut numbers = [0u32; MOST_NUMBERS];
    if name == Name::Open {
        return options(s, SETTINGS, KEY_COUNT, &mut keys, &mut numbers).left;
    }
    let mut octets = [0u8; MOST_OCTETS];
    let mut words_said = [0u64; WORD_COUNT];
    let given = arguments(s, name, &mut words_said, &mut octets);
    if given.unread.is_some() {
        return given.left;
    }
    options(given.left, BUFFER, name.keys_end(), &mut keys, &mut numbers).left
}

pub(crate) fn found_in(line: &[u8]) -> &[u8]
    ensures { result.now ≡ Found.found_in line.now }
{
    let Some(first) = begins(line) else {
        return &[];
    };
    let Some(name) = first.name else {
        return first.word;
    };
    match split_word(unread(first.rest, name)) {
        Some((word, _)) => word,
        None => &[],
    }
}

pub(crate) fn first_in(line: &[u8]) -> &[u8]
    ensures { result.now ≡ Found.first_in line.now }
{
    match begins(line) {
        Some(first) => first.word,
        None => &[],
    }
}
