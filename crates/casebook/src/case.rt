// A line taken apart: the function's name, what it is given, and the word that is expected.
ghost use Rattle.std.specs.Prelude.{◌≤◌, IfSome, length};
ghost use Rattle.text.specs.Part.{Behind, StandsIn};

use super::words::{decode, split_word};

// Every function takes six numbers, and a row of its table says how many of them are given: so they are counted. Octets stand in the
// caller's room, as many as there are, if octets are given.
#[derive(Clone, Copy)]
pub struct Given {
    pub numbers: [u64; 6],
    pub count: usize,
    pub octets: Option<usize>,
}

#[derive(Clone, Copy)]
pub struct Case<'a> {
    pub name: &'a [u8],
    pub given: Given,
    // none where the line is not understood
    pub expected: Option<&'a [u8]>,
}

// The numbers up to the first word that is none, how many they are, and what follows them.
fn leading(s: &[u8]) -> ([u64; 6], usize, &[u8])
    ensures { Behind s.now result.2.now }
{
    let mut numbers = [0u64; 6];
    let mut left = s;
    for count in 0..6 {
        let (word, rest) = split_word(left);
        let Some(number) = text::number(word) else {
            return (numbers, count, left);
        };
        numbers[count] = number;
        left = rest;
    }
    (numbers, 6, left)
}

// The expected word is the last of the line, after a sign of equality of its own.
fn expected(s: &[u8]) -> Option<&[u8]>
    ensures { IfSome result (λ word. StandsIn s.now word.now) }
{
    let (sign, rest) = split_word(s);
    let (word, rest) = split_word(rest);
    let (last, _) = split_word(rest);
    (sign == b"=".as_slice() && !word.is_empty() && last.is_empty()).then_some(word)
}

// The octets go to room.
pub fn read<'a>(line: &'a [u8], room: &mut [u8]) -> Case<'a>
    ensures name { StandsIn line.now result.name.now }
    ensures expected { IfSome result.expected (λ word. StandsIn line.now word.now) }
    ensures octets_in_bounds { IfSome result.given.octets (λ count. count ≤ length room.new) }
{
    let (name, rest) = split_word(line);
    let (numbers, count, left) = leading(rest);
    let (word, behind) = split_word(left);
    let octets = decode(word, room);
    let rest = if octets.is_some() { behind } else { left };
    Case {
        name,
        given: Given {
            numbers,
            count,
            octets,
        },
        expected: expected(rest),
    }
}
