// The functions of octets that a case can name. A row is counted from 0, in the order of the table.
use super::double_cases::of_bool;
use casebook::answer::Answer;
use octets::{clear, get_u16, get_u32, is_zero, put_u16, put_u24, put_u32};

pub const TABLE: [u8; 74] = *b"get_u16 1o\n\
    get_u32 1o\n\
    put_u16 2o\n\
    put_u24 2o\n\
    put_u32 2o\n\
    clear 1o\n\
    is_zero 2o";

// The rows that read: up to a place, or as many octets as the function's number has.
fn read(row: usize, p: &[u8], at: usize, to: u64) -> Answer {
    let len = p.len();
    match row {
        0 if at.saturating_add(2) <= len => Answer::Number(u64::from(get_u16(p, at))),
        1 if at.saturating_add(4) <= len => Answer::Number(u64::from(get_u32(p, at))),
        6 if to <= len as u64 => of_bool(is_zero(p, at, to as usize)),
        _ => Answer::Nothing,
    }
}

// The rows that write, where there is room: a number, or zeros.
fn write(row: usize, p: &mut [u8], at: usize, v: Option<u32>) -> Answer {
    let len = p.len();
    match (row, v) {
        (2, Some(v)) if at.saturating_add(2) <= len && v < 65536 => put_u16(p, at, v as u16),
        (3, Some(v)) if at.saturating_add(3) <= len => put_u24(p, at, v),
        (4, Some(v)) if at.saturating_add(4) <= len => put_u32(p, at, v),
        (5, _) if at <= len => clear(p, at),
        _ => return Answer::Nothing,
    }
    Answer::Octets
}

// p is what the case gives, and is changed in place. No answer where a place or a value is outside what the function asks.
pub fn answer(row: usize, n: [u64; 6], p: &mut [u8]) -> Answer {
    if n[0] >= 65536 {
        return Answer::Nothing;
    }
    let at = n[0] as usize;
    match row {
        0 | 1 | 6 => read(row, p, at, n[1]),
        _ => write(row, p, at, u32::try_from(n[1]).ok()),
    }
}
