// The words that stand after a call's name, into a lent list of values.
ghost use Rattle.std.specs.Prelude.{◌≡◌};
ghost use Rattle.text.specs.Split.{words};
ghost use Rattle.lines.specs.Argument as Argument;
ghost use Rattle.lines.specs.Name.{form};

use super::key::WORD_COUNT;
use super::name::Name;
use stream::MOST_OCTETS;
use values::address::sender;
use values::hexadecimal::octets;
use values::reading::{reading, up_to};

// What a word is.
#[derive(Clone, Copy, Debug, PartialEq, Eq)]
pub enum Kind {
    Reading,
    Number,
    Octet,
    Places,
    Sender,
    Octets,
}

impl Kind {
    // The most that it can be; of a sender, by its address and port as one number.
    fn most(self) -> u64
        ensures { result ≡ Argument.most self }
    {
        match self {
            Kind::Reading => u64::MAX,
            Kind::Number => u32::MAX as u64,
            Kind::Octet => u8::MAX as u64,
            Kind::Places => 1024,
            Kind::Sender => 281474976776191,
            Kind::Octets => MOST_OCTETS as u64,
        }
    }
}

fn argument_as(kind: Kind, w: &[u8], room: &mut [u8; MOST_OCTETS]) -> Option<u64>
    ensures { (result ≡ Argument.argument_as kind w.now) ×
        (room.new ≡ Argument.octets_seen_as kind w.now room.old) }
{
    match kind {
        Kind::Reading => reading(w),
        Kind::Sender => sender(w),
        Kind::Octets => octets(w, room),
        Kind::Number | Kind::Octet | Kind::Places => text::digits(w, 10),
    }
}

fn argument(kind: Kind, w: &[u8], room: &mut [u8; MOST_OCTETS]) -> Option<u64>
    ensures { (result ≡ Argument.argument kind w.now) ×
        (room.new ≡ Argument.octets_seen_as kind w.now room.old) }
{
    up_to(argument_as(kind, w, room), kind.most())
}

#[derive(Clone, Copy)]
pub(crate) struct Words<'a> {
    // what the first word is that isn't there or can't be read
    pub(crate) unread: Option<Kind>,
    // what is left, from that word on, or behind all of them
    pub(crate) left: &'a [u8],
}

// The words of s, as those of a name.
pub(crate) fn arguments<'a>(
    s: &'a [u8],
    name: Name,
    values: &mut [u64; WORD_COUNT],
    room: &mut [u8; MOST_OCTETS],
) -> Words<'a>
    ensures { Argument.Arguments (form name).words values.old room.old
        (words s.now) result.unread result.left.now values.new room.new }
{
    let mut left = s;
    for (j, &kind) in name.words().iter().enumerate() {
        let Some((word, rest)) = text::split_word(left) else {
            return Words {
                unread: Some(kind),
                left,
            };
        };
        let Some(v) = argument(kind, word, &mut *room) else {
            return Words {
                unread: Some(kind),
                left,
            };
        };
        values[j] = v;
        left = rest;
    }
    Words { unread: None, left }
}
