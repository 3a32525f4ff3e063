// A line's call: its name, then what stands after it.
ghost use Rattle.std.specs.Prelude.{◌≡◌, ◌<◌};
ghost use Rattle.text.specs.Split.{words};
ghost use Rattle.lines.specs.Call as Call;
ghost use Rattle.lines.specs.Key.{key_count};

use super::argument::{Kind, arguments};
use super::key::{BUFFER, KEY_COUNT, WORD_COUNT};
use super::name::{Name, begins};
use super::option::options;
use super::{Endpoint, Expected, LONGEST, Read, key};
use encoding::lent::Asked;
use iq::IQ_DATAGRAM_LEN;
use stream::{BITS_PER_SAMPLE, MOST_OCTETS, SAMPLES_PER_DATAGRAM};
use values::datagram::{put_iq, put_status};
use wire::status::STATUS_LEN;

// What an `iq` line's options are where they are left out.
const LENGTH: u64 = IQ_DATAGRAM_LEN as u64;

const BITS: u64 = BITS_PER_SAMPLE as u64;

fn expected_word(kind: Kind) -> Expected
    ensures { result ≡ Call.expected_word kind }
{
    match kind {
        Kind::Reading => Expected::Reading,
        Kind::Number => Expected::DatagramNumber,
        Kind::Octet => Expected::Octet,
        Kind::Places => Expected::Places,
        Kind::Sender => Expected::Sender,
        Kind::Octets => Expected::Octets,
    }
}

// What a line of a name asks for.
fn asks(name: Name) -> Read
    ensures { result ≡ Call.asks name }
{
    match name {
        Name::State => Read::State,
        Name::Radio => Read::Radio,
        Name::Open => Read::Open,
        _ => Read::Call,
    }
}

// What a call's line says: its words, and each key's value where the key is said.
#[derive(Clone, Copy)]
pub struct Values {
    pub words: [u64; WORD_COUNT],
    pub keys: [Option<u64>; KEY_COUNT],
}

// A key's value, or what it is where it is left out.
pub(crate) fn or_else(keys: &[Option<u64>; KEY_COUNT], key: usize, other: u64) -> u64
    requires { key < key_count }
    ensures { result ≡ Call.or_else keys.now key other }
{
    keys[key].unwrap_or(other)
}

fn later_of(name: Name, values: &Values) -> u64
    ensures { result ≡ Call.later_of name values.now }
{
    match name {
        Name::Take => 0,
        _ => values.words[key::SECOND_WORD],
    }
}

// The sender's address and port: those that the line says, or the radio's own of the datagram's kind.
fn sender_of(name: Name, radio: Endpoint, values: &Values) -> (u64, u64)
    ensures { result ≡ Call.sender_of name radio values.now }
{
    let said = values.words[key::THIRD_WORD];
    match name {
        Name::Datagram => (said / 65536, said % 65536),
        Name::Iq => (u64::from(radio.ip), u64::from(radio.port.wrapping_add(11))),
        Name::Status => (u64::from(radio.ip), u64::from(radio.port.wrapping_add(1))),
        _ => (0, 0),
    }
}

fn count_of(name: Name, values: &Values) -> u64
    ensures { result ≡ Call.count_of name values.now }
{
    match name {
        Name::Iq => or_else(&values.keys, key::LENGTH, LENGTH),
        Name::Status => STATUS_LEN as u64,
        Name::Datagram => values.words[key::FOURTH_WORD],
        _ => 0,
    }
}

fn places_of(name: Name, values: &Values) -> u64
    ensures { result ≡ Call.places_of name values.now }
{
    match name {
        Name::Take => values.words[key::SECOND_WORD],
        _ => or_else(&values.keys, BUFFER, name.buffer()),
    }
}

fn call_of(name: Name, radio: Endpoint, values: &Values) -> [u64; 8]
    ensures { result ≡ Call.call_of name radio values.now }
{
    let kind = name.call().number();
    let reading = values.words[key::FIRST_WORD];
    let later = later_of(name, values);
    let (address, from) = sender_of(name, radio, values);
    let count = count_of(name, values);
    let waiting = or_else(&values.keys, key::WAITING, 0);
    let places = places_of(name, values);
    [kind, reading, later, address, from, count, waiting, places]
}

// The datagram of an `iq` or a `status` line; that of `datagram` is there.
fn put_datagram(name: Name, values: &Values, octets: &mut [u8; MOST_OCTETS])
    requires { Call.Small name values.now }
    ensures { octets.new ≡ Call.octets_of name values.now octets.old }
{
    match name {
        Name::Iq => {
            let number = values.words[key::THIRD_WORD] as u32;
            let bits = or_else(&values.keys, key::BITS, BITS) as u16;
            let samples = or_else(&values.keys, key::SAMPLES, SAMPLES_PER_DATAGRAM) as u16;
            put_iq(octets, number, bits, samples)
        }
        Name::Status => put_status(octets, values.words[key::THIRD_WORD] as u8),
        _ => {}
    }
}

fn read_named(s: &[u8], name: Name, radio: Endpoint, asked: &mut Asked) -> Result<Read, Expected>
    ensures { Call.Named name radio asked.old (words s.now) result asked.new }
{
    let mut words = [0u64; WORD_COUNT];
    let given = arguments(s, name, &mut words, &mut asked.octets);
    if let Some(kind) = given.unread {
        return Err(expected_word(kind));
    }
    let mut keys: [Option<u64>; KEY_COUNT] = [None; KEY_COUNT];
    let end = name.keys_end();
    let run = options(given.left, BUFFER, end, &mut keys, &mut asked.numbers);
    if let Err(untaken) = run.took {
        return Err(untaken.expected(Expected::End));
    }
    let asks = asks(name);
    if asks == Read::Call {
        let values = Values { words, keys };
        asked.call = call_of(name, radio, &values);
        put_datagram(name, &values, &mut asked.octets);
        return Ok(Read::Call);
    }
    Ok(asks)
}

pub(crate) fn read_line(line: &[u8], radio: Endpoint, asked: &mut Asked) -> Result<Read, Expected>
    ensures { Call.Lent line.now radio asked.old result asked.new }
{
    if line.len() > LONGEST {
        return Err(Expected::ShorterLine);
    }
    let Some(first) = begins(line) else {
        return Ok(Read::Nothing);
    };
    let name = first.name.ok_or(Expected::Call)?;
    if name == Name::Open {
        return Ok(Read::Open);
    }
    read_named(first.rest, name, radio, asked)
}
