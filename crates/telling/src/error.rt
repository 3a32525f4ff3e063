// A line that can't be read, or a list: the line's number, what was expected, and what stands there.
use console::output::Output;
use lines::key::KEYS;
use lines::{Expected, LONGEST, first_word, found};

// As CALLS.md has it.
fn put_expected(out: &mut Output, e: Expected) {
    match e {
        Expected::Call => out.put(b"a call"),
        Expected::Open => out.put(b"open"),
        Expected::Setting => out.put(b"a setting"),
        Expected::ValueOf(key) => {
            out.put(b"a value of ");
            out.nth_filled(&KEYS, b' ', key as u64, &[])
        }
        Expected::Reading => out.put(b"a reading"),
        Expected::DatagramNumber => out.put(b"a number of a datagram"),
        Expected::Octet => out.put(b"an octet"),
        Expected::Sender => out.put(b"an address and a port"),
        Expected::Octets => out.put(b"octets in hexadecimal"),
        Expected::Places => out.put(b"a number of places"),
        Expected::End => out.put(b"the end of the line"),
        Expected::ShorterLine => out.put(b"a shorter line"),
        Expected::FewerStretches => out.put(b"fewer stretches"),
    }
}

// What of a word is shown.
const SHOWN: usize = 40;

// An octet that doesn't print, or is the backslash, by its two hexadecimal digits.
fn octet(out: &mut Output, x: u8) {
    match x {
        b'\\' => out.put(b"\\x5c"),
        b'!'..=b'~' => out.put(&[x]),
        _ => out.named_hex(b"\\x", u64::from(x), 2),
    }
}

fn octets(out: &mut Output, word: &[u8]) {
    for x in word {
        octet(out, *x);
    }
}

fn quoted(out: &mut Output, word: &[u8]) {
    let shown = word.len().min(SHOWN);
    out.put(b"'");
    octets(out, &word[..shown]);
    out.put(if word.len() > SHOWN { b"'.." } else { b"'" })
}

// Editors put it before a text's first word, and show nothing there.
fn is_byte_order_mark(word: &[u8]) -> bool {
    word.starts_with(b"\xef\xbb\xbf")
}

fn stands(out: &mut Output, word: &[u8]) {
    if word.is_empty() {
        return out.put(b"the end of the line");
    }
    if is_byte_order_mark(word) {
        return out.put(b"a byte order mark");
    }
    quoted(out, word)
}

// Of a call where there is no session, its name.
fn word_of(line: &[u8], e: Expected) -> &[u8] {
    match e {
        Expected::Open => first_word(line),
        _ => found(line),
    }
}

fn put_found(out: &mut Output, line: &[u8], e: Expected, stretches: usize) {
    match e {
        Expected::ShorterLine => out.filled(b"more than # octets", &[LONGEST as u64]),
        Expected::FewerStretches => out.number(stretches as u64),
        _ => stands(out, word_of(line, e)),
    }
}

// The line of this number can't be read, or not be run: what was expected there. The stretches are those of the session so far.
pub fn tell(out: &mut Output, number: u64, e: Expected, line: &[u8], stretches: usize) {
    out.filled(b"error line #: expected ", &[number]);
    put_expected(out, e);
    out.put(b", found ");
    put_found(out, line, e, stretches);
    out.put(b"\n")
}

// The line of this number is not there whole: the list's input failed.
pub fn unread(out: &mut Output, number: u64) {
    out.filled(b"error line #: the list can't be read on\n", &[number])
}
