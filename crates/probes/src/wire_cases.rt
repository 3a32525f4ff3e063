// The functions of wire on numbers that a case can name. A row is counted from 0, in the order of the table.
use super::double_cases::{double_of, of_number};
use casebook::answer::Answer;
use sequence::{SeqEvent, SeqTracker};
use tuning::alex::{AlexWords, alex_words};
use tuning::board::{BoardInfo, FilterScheme, board_info};
use tuning::phase::phase_word;
use tuning::rate::{is_rate_khz, rate_khz};
use wire::status::adc0_overload;

// The four of observe are given whether a number is expected, that number, the stale run and the arrival's number.
pub const TABLE: [u8; 175] = *b"phase_word 1\n\
    rate_khz 1\n\
    alex0 2\n\
    alex1 2\n\
    board_adcs 1\n\
    board_enable 1\n\
    board_scheme 1\n\
    adc0_overload 1\n\
    observe_event 4\n\
    observe_gap 4\n\
    observe_expected 4\n\
    observe_run 4\n\
    is_rate_khz 1";

fn rate(x: f64) -> Answer {
    match rate_khz(x) {
        Some(khz) => Answer::Number(u64::from(khz)),
        None => Answer::Refused(3),
    }
}

fn scheme_of(n: u64) -> Option<FilterScheme> {
    match n {
        0 => Some(FilterScheme::None),
        1 => Some(FilterScheme::Classic),
        2 => Some(FilterScheme::BandPassDual),
        3 => Some(FilterScheme::BandPass),
        4 => Some(FilterScheme::Bypass),
        _ => None,
    }
}

fn of_scheme(s: FilterScheme) -> u64 {
    match s {
        FilterScheme::None => 0,
        FilterScheme::Classic => 1,
        FilterScheme::BandPassDual => 2,
        FilterScheme::BandPass => 3,
        FilterScheme::Bypass => 4,
    }
}

fn alex(n: [u64; 6]) -> Option<AlexWords> {
    Some(alex_words(scheme_of(n[0])?, double_of(n[1])))
}

// 256 stands for a discovery that was skipped.
fn board(n: u64) -> Option<BoardInfo> {
    if n > 256 {
        return None;
    }
    Some(board_info(u8::try_from(n).ok()))
}

fn number_of(e: SeqEvent) -> u64 {
    match e {
        SeqEvent::InOrder => 0,
        SeqEvent::Gap(_) => 1,
        SeqEvent::Stale => 2,
        SeqEvent::Restart => 3,
    }
}

pub fn of_event(e: SeqEvent) -> Answer {
    Answer::Number(number_of(e))
}

fn gap_of(e: SeqEvent) -> u64 {
    if let SeqEvent::Gap(k) = e {
        return u64::from(k);
    }
    0
}

// What an arrival is to a tracker, and the tracker after it.
fn observed(n: [u64; 6]) -> Option<(SeqEvent, SeqTracker)> {
    let next = u32::try_from(n[1]).ok()?;
    let stale_run = u32::try_from(n[2]).ok()?;
    let seq = u32::try_from(n[3]).ok()?;
    let expected = match n[0] {
        0 => None,
        1 => Some(next),
        _ => return None,
    };
    let mut tracker = SeqTracker {
        expected,
        stale_run,
    };
    Some((tracker.observe(seq), tracker))
}

// The number that a row gives. None where a number is not of the type that the function takes.
fn number(row: usize, n: [u64; 6]) -> Option<u64> {
    let given = match row {
        0 => u64::from(phase_word(double_of(n[0]))),
        2 => u64::from(alex(n)?.alex0),
        3 => u64::from(alex(n)?.alex1),
        4 => u64::from(board(n[0])?.adc_count),
        5 => u64::from(board(n[0])?.filter_enable),
        6 => of_scheme(board(n[0])?.scheme),
        7 => u64::from(adc0_overload(u8::try_from(n[0]).ok()?)),
        8 => number_of(observed(n)?.0),
        9 => gap_of(observed(n)?.0),
        // the tracker expects a number after every arrival
        10 => u64::from(observed(n)?.1.expected?),
        11 => u64::from(observed(n)?.1.stale_run),
        _ => u64::from(is_rate_khz(u16::try_from(n[0]).ok()?)),
    };
    Some(given)
}

pub fn answer(row: usize, n: [u64; 6]) -> Answer {
    match row {
        1 => rate(double_of(n[0])),
        _ => of_number(number(row, n)),
    }
}
