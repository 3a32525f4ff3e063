// The functions of a receiver that a case can name, and the port of a stream. A row is counted from 0, in the order of the table.
ghost use Rattle.std.specs.Prelude.{◌+◌, ◌≤◌, length};

use super::attenuator_cases::{put_reading, reading};
use super::report_cases;
use super::report_cases::{arrived, event_of, receiver};
use casebook::answer::Answer;
use model::command::destination;
use model::receiver::{Parked, Pending};
use outage::elapsed::{capped, restart_outage, unaccounted};
use outage::window::{begun, used};
use probes::double_cases::double_of;
use probes::wire_cases::of_event;
use sequence::SeqTracker;

pub const TABLE: [u8; 102] = *b"unaccounted 3o\n\
    capped 3\n\
    window_begun 3o\n\
    window_used 1o\n\
    restart_outage 5o\n\
    report_event 4o\n\
    destination 2";

// A window's octets, eight for each number: 1 where it is open, its anchor, its account and the arrivals that are left.
const WINDOW: usize = 32;

// The most waiting numbers of a case.
const WAITING: usize = 512;

fn window(p: &[u8]) -> Option<Parked>
    requires { 32 ≤ length p.now }
{
    if reading(p, 0) == 0 {
        return None;
    }
    Some(Parked {
        from: reading(p, 8),
        accounted: reading(p, 16),
        left: reading(p, 24),
    })
}

fn put_open(p: &mut [u8], w: Parked)
    requires { 32 ≤ length p.old }
{
    put_reading(p, 0, 1);
    put_reading(p, 8, w.from);
    put_reading(p, 16, w.accounted);
    put_reading(p, 24, w.left);
}

fn put_window(w: Option<Parked>, p: &mut [u8]) -> Answer
    requires { 32 ≤ length p.old }
{
    match w {
        None => octets::clear(p, WINDOW),
        Some(open) => put_open(p, open),
    }
    Answer::Octets
}

// The numbers of the octets after the window, four each, and how many there are.
fn waiting(p: &[u8], out: &mut [u32]) -> usize
    requires { 32 ≤ length p.now }
    ensures { result ≤ length out.new }
{
    let given = &p[WINDOW..];
    for (number, octets) in out.iter_mut().zip(given.chunks_exact(4)) {
        *number = octets::get_u32(octets, 0);
    }
    out.len().min(given.len() / 4)
}

// n is the rate, the last accepted reading, the arrival's reading, the later one, and the number expected next.
fn outage(n: [u64; 6], p: &[u8]) -> Answer
    requires { 32 ≤ length p.now }
{
    let mut numbers = [0u32; WAITING];
    let many = waiting(p, &mut numbers);
    let all = &numbers[..];
    let mut r = receiver(Pending {
        missing: None,
        discontinuity: None,
    });
    r.tracker = SeqTracker {
        expected: Some((n[4] % 4294967296) as u32),
        stale_run: 0,
    };
    r.last_accepted_iq = n[1];
    r.parked = window(p);
    let arrival = arrived(n[2], n[3], &all[0..many]);
    Answer::Number(restart_outage(double_of(n[0]), &r, arrival))
}

// The rows with a window at the front of their octets.
fn with_window(row: usize, n: [u64; 6], p: &mut [u8]) -> Answer {
    if p.len() < WINDOW {
        return Answer::Nothing;
    }
    match row {
        0 => Answer::Number(unaccounted(double_of(n[0]), n[1], window(p), n[2])),
        2 => put_window(begun(window(p), n[0], n[1], n[2]), p),
        3 => put_window(used(window(p), n[0]), p),
        _ => outage(n, p),
    }
}

fn port(n: u64, offset: u64) -> Answer {
    match (u16::try_from(n), u8::try_from(offset)) {
        (Ok(n), Ok(offset)) => Answer::Number(u64::from(destination(n, offset))),
        _ => Answer::Nothing,
    }
}

// p is what the case gives, and is changed in place.
pub fn answer(row: usize, n: [u64; 6], p: &mut [u8]) -> Answer {
    match row {
        1 => of_event(capped(n[0], event_of(n[1], n[2]))),
        5 => report_cases::answer(n, p),
        6 => port(n[0], n[1]),
        _ => with_window(row, n, p),
    }
}
