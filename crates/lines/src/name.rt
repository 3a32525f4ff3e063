// The names of calls, what a line of each has, and the name that a line begins with.
ghost use Rattle.std.specs.Prelude.{◌≡◌, [], MatchOption};
ghost use Rattle.encoding.specs.Words.{kind_number};
ghost use Rattle.text.specs.Split.{words};
ghost use Rattle.lines.specs.Name.{Begins, form, name_of, text_of};

use super::argument::Kind;
use super::key::{BUFFER, LENGTH, SETTINGS, WAITING};
use encoding::kind::Kind as CallKind;

// What the first word of a line names: a call, what is asked of a session beside its calls, or a session that is opened.
#[derive(Clone, Copy, Debug, PartialEq, Eq)]
pub enum Name {
    Begin,
    Pass,
    Iq,
    Status,
    Datagram,
    Take,
    Close,
    Missing,
    Discontinuity,
    Stalled,
    State,
    Radio,
    Open,
}

// How they are spelt, as `place_of` takes it, and which name each place is.
const SPELT: [u8; 87] =
    *b"begin pass iq status datagram take close missing discontinuity stalled state radio open";

const NAMES: [Name; 13] = [
    Name::Begin,
    Name::Pass,
    Name::Iq,
    Name::Status,
    Name::Datagram,
    Name::Take,
    Name::Close,
    Name::Missing,
    Name::Discontinuity,
    Name::Stalled,
    Name::State,
    Name::Radio,
    Name::Open,
];

impl Name {
    fn of(word: &[u8]) -> Option<Name>
        ensures { result ≡ name_of word.now }
    {
        let place = text::place_of(word, &SPELT)?;
        NAMES.get(place).copied()
    }

    // What the words are that stand after it, in order.
    pub(crate) fn words(self) -> &'static [Kind]
        ensures { result.now ≡ (form self).words }
    {
        match self {
            Name::Begin | Name::Pass => &[Kind::Reading],
            Name::Iq => &[Kind::Reading, Kind::Reading, Kind::Number],
            Name::Status => &[Kind::Reading, Kind::Reading, Kind::Octet],
            Name::Datagram => &[Kind::Reading, Kind::Reading, Kind::Sender, Kind::Octets],
            Name::Take => &[Kind::Reading, Kind::Places],
            _ => &[],
        }
    }

    // A call has the keys before this one.
    pub(crate) fn keys_end(self) -> usize
        ensures { result ≡ (form self).keys_end }
    {
        match self {
            Name::Pass | Name::Close => WAITING,
            Name::Iq => SETTINGS,
            Name::Status | Name::Datagram => LENGTH,
            _ => BUFFER,
        }
    }

    // The call that it is; what is no call has that of Begin, whose number is 0.
    pub(crate) fn call(self) -> CallKind
        ensures { kind_number result ≡ (form self).kind }
    {
        match self {
            Name::Pass => CallKind::Pass,
            Name::Iq | Name::Status | Name::Datagram => CallKind::Arrival,
            Name::Take => CallKind::Take,
            Name::Close => CallKind::Close,
            Name::Missing => CallKind::TakeMissing,
            Name::Discontinuity => CallKind::TakeDiscontinuity,
            Name::Stalled => CallKind::TakeStalled,
            Name::Begin | Name::State | Name::Radio | Name::Open => CallKind::Begin,
        }
    }

    // The packet buffer that a call needs.
    pub(crate) fn buffer(self) -> u64
        ensures { result ≡ (form self).buffer }
    {
        match self {
            Name::Pass => 4452,
            Name::Iq | Name::Status | Name::Datagram => 1444,
            Name::Close => 2888,
            _ => 0,
        }
    }
}

// A line's first word, what it names, and what follows it, without the line's comment.
#[derive(Clone, Copy)]
pub(crate) struct Beginning<'a> {
    pub(crate) word: &'a [u8],
    // none if the word is no name
    pub(crate) name: Option<Name>,
    pub(crate) rest: &'a [u8],
}

// None where the line has no words.
pub(crate) fn begins(line: &[u8]) -> Option<Beginning>
    ensures { MatchOption result (words (text_of line.now) ≡ []) (λ b. Begins line.now b.word.now b.name b.rest.now) }
{
    let end = text::find(line, b'#');
    let (word, rest) = text::split_word(&line[..end])?;
    Some(Beginning {
        word,
        name: Name::of(word),
        rest,
    })
}
