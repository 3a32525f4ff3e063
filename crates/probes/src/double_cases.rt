// The functions of double that a case can name. A row is counted from 0, in the order of the table.
use casebook::answer::Answer;
use double::{time, whole};

pub const TABLE: [u8; 199] = *b"is_finite 1\n\
    is_whole 1\n\
    floor_u64 1\n\
    ceil_u64 1\n\
    round_u64 1\n\
    cast_u32 1\n\
    round 1\n\
    nanoseconds 1\n\
    seconds 1\n\
    jump_limit 2\n\
    restart_missing 2\n\
    account_time 2\n\
    covered_time 2\n\
    below_half 2\n\
    since 2\n\
    saturating_add 2";

// The double of a pattern. Every NaN's pattern gives the one NaN that the language has.
#[tactic(auto, using(std::proofs::lemmas::Float::not_nan_f64_bits))]
pub fn double_of(bits: u64) -> f64 {
    if bits % 9223372036854775808 > 9218868437227405312 {
        return 0.0 / 0.0;
    }
    f64::from_bits(bits)
}

// A NaN is told by one pattern, whichever it has.
fn of_double(x: f64) -> Answer {
    if x.is_nan() {
        return Answer::Double(9221120237041090560);
    }
    Answer::Double(f64::to_bits(x))
}

pub fn of_bool(b: bool) -> Answer {
    Answer::Number(if b { 1 } else { 0 })
}

pub(crate) fn of_number(n: Option<u64>) -> Answer {
    match n {
        Some(n) => Answer::Number(n),
        None => Answer::Nothing,
    }
}

// Those of one double come first, then those of a number and, but for seconds, a rate, then those of two numbers.
pub fn answer(row: usize, n: [u64; 6]) -> Answer {
    let x = double_of(n[0]);
    let rate = double_of(n[1]);
    match row {
        0 => of_bool(x.is_finite()),
        1 => of_bool(whole::is_whole(x)),
        2 => Answer::Number(whole::floor_u64(x)),
        3 => Answer::Number(whole::ceil_u64(x)),
        4 => Answer::Number(whole::round_u64(x)),
        5 => Answer::Number(u64::from(whole::cast_u32(x))),
        6 => of_double(whole::round(x)),
        7 => Answer::Number(time::nanoseconds(x)),
        8 => of_double(time::seconds(n[0])),
        9 => Answer::Number(stream::jump_limit(n[0], rate)),
        10 => Answer::Number(stream::restart_missing(n[0], rate)),
        11 => Answer::Number(stream::account_time(n[0], rate)),
        12 => Answer::Number(stream::covered_time(n[0], rate)),
        13 => of_bool(stream::below_half(n[0], rate)),
        14 => Answer::Number(n[0].saturating_sub(n[1])),
        15 => Answer::Number(n[0].saturating_add(n[1])),
        _ => Answer::Nothing,
    }
}
