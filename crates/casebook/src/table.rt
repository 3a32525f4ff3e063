// Tables of functions: a row for each, a line of its name and of what it is given, a count of numbers and an o for octets.
use super::words::split_word;

// Whether a row has this name and is given this.
fn is_row(row: &[u8], name: &[u8], count: usize, has_octets: bool) -> bool {
    let (word, rest) = split_word(row);
    word == name && kinds(rest, count, has_octets)
}

// Whether the word after a row's name says so many numbers, and octets or none.
fn kinds(rest: &[u8], count: usize, has_octets: bool) -> bool {
    if rest.len() < 2 {
        return false;
    }
    text::digit(rest[1]) == count as u64 && (rest.len() == 3) == has_octets
}

// The number of the first row that fits.
pub fn find(table: &[u8], name: &[u8], count: usize, has_octets: bool) -> Option<usize> {
    table
        .split(|x| *x == b'\n')
        .position(|row| is_row(row, name, count, has_octets))
}
