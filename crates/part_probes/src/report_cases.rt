// What an event misses, where it is told and what it counts: octets for the two slots, the three counts and the missing.
ghost use Rattle.std.specs.Prelude.{◌+◌, ◌≤◌, length};

use super::attenuator_cases::{put_reading, reading};
use casebook::answer::Answer;
use health::InputHealthCounters;
use model::incoming::Incoming;
use model::receiver::{Pending, Reading, Receiver};
use model::sender::Sender;
use outage::report::report_event;
use probes::double_cases::double_of;
use sequence::{SeqEvent, SeqTracker};
use stall::StallEpisode;

// Eight octets for each number. A slot has two: 1 where it holds a number, and the number.
const TOLD: usize = 64;

// A gap has k datagrams.
pub fn event_of(kind: u64, k: u64) -> SeqEvent {
    match kind {
        0 => SeqEvent::InOrder,
        1 => SeqEvent::Gap((k % 4294967296) as u32),
        2 => SeqEvent::Stale,
        _ => SeqEvent::Restart,
    }
}

fn slot(p: &[u8], at: usize) -> Option<u64>
    requires { at + 16 ≤ length p.now }
{
    if reading(p, at) == 0 {
        return None;
    }
    Some(reading(p, at + 8))
}

fn put_slot(p: &mut [u8], at: usize, s: Option<u64>)
    requires { at + 16 ≤ length p.old }
{
    match s {
        None => octets::clear(&mut p[at..], 16),
        Some(n) => {
            put_reading(p, at, 1);
            put_reading(p, at + 8, n);
        }
    }
}

fn counts(p: &[u8]) -> InputHealthCounters
    requires { 64 ≤ length p.now }
{
    InputHealthCounters {
        dropped_packets: reading(p, 32),
        gaps_detected: reading(p, 40),
        malformed_packets: reading(p, 48),
    }
}

// In no window, and last accepted at the reading 0.
pub fn receiver(pending: Pending) -> Receiver {
    let none = Reading {
        wait_entered: None,
        entered: None,
    };
    Receiver {
        tracker: SeqTracker::new(),
        queue_pos: 238,
        reading: none,
        parked: None,
        pending,
        last_valid_iq: 0,
        last_accepted_iq: 0,
        read_returned: 0,
        stall: StallEpisode::new(),
    }
}

// An arrival of whose datagram only the readings and the numbers behind it are looked at.
pub(crate) fn arrived(reading: u64, later: u64, waiting: &[u32]) -> Incoming {
    Incoming {
        reading,
        later,
        from: Sender::V6,
        datagram: &[],
        waiting,
    }
}

fn put_counts(p: &mut [u8], c: InputHealthCounters)
    requires { 64 ≤ length p.old }
{
    put_reading(p, 32, c.dropped_packets);
    put_reading(p, 40, c.gaps_detected);
    put_reading(p, 48, c.malformed_packets);
}

// n is the rate, the event, a gap's datagrams, and the time since the last accepted arrival.
fn report(n: [u64; 6], p: &mut [u8])
    requires { 64 ≤ length p.old }
{
    let mut r = receiver(Pending {
        missing: slot(p, 0),
        discontinuity: slot(p, 16),
    });
    let mut health = counts(p);
    let arrival = arrived(n[3], n[3], &[]);
    let missing = report_event(
        double_of(n[0]),
        event_of(n[1], n[2]),
        &mut r,
        &mut health,
        arrival,
    );
    put_slot(p, 0, r.pending.missing);
    put_slot(p, 16, r.pending.discontinuity);
    put_counts(p, health);
    put_reading(p, 56, missing);
}

pub fn answer(n: [u64; 6], p: &mut [u8]) -> Answer {
    if p.len() < TOLD {
        return Answer::Nothing;
    }
    report(n, p);
    Answer::Octets
}
