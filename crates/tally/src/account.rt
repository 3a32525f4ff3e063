// The stretches of a session: all but the last stand in a lent table, seven numbers each, and the last is at hand.
ghost use Rattle.std.specs.Prelude.{◌≡◌, ◌+◌, ◌*◌, ◌<◌, ◌≤◌, length, is_ok, slice_index_or};
ghost use Rattle.octets.specs.Written.{written};
ghost use Rattle.tally.specs.Table.{empty, blank, numbers_of, stretch_at, stretches_of};
ghost use Rattle.tally.specs.Table.{begins, note_in, table_by, table_in, handing};
ghost use Rattle.tally.specs.declared.record.Event.TheVariants.{Restart};

use super::record::{Event, Record};
use super::stretch::{Stretch, first, more};

// The most stretches of a session.
pub const STRETCHES: usize = 4096;

// The table's places, seven for each.
pub const TABLE: usize = 28672;

#[derive(Clone, Copy)]
pub struct Account {
    pub stretches: usize,
    // the last of them, which is not in the table
    pub(crate) last: Stretch,
    // pairs that Takes handed out, modulo 2^64
    pub(crate) handed: u64,
}

// There was no room for another stretch, and the account is as it was.
#[derive(Clone, Copy, Debug, PartialEq, Eq)]
pub struct Full;

fn no_stretch() -> Stretch
    ensures { result ≡ blank }
{
    Stretch {
        at: 0,
        last: 0,
        first: 0,
        restart: 0,
        highest: 0,
        samples: 0,
        missing: 0,
    }
}

// That of a session just opened, whatever the table holds.
pub fn none() -> Account
    ensures { result ≡ empty }
{
    let last = no_stretch();
    Account {
        stretches: 0,
        last,
        handed: 0,
    }
}

fn store(table: &mut [u64], at: usize, s: Stretch)
    requires { at + 7 ≤ length table.old }
    ensures { table.new ≡ written table.old at (numbers_of s) }
{
    table[at] = s.at;
    table[at + 1] = s.last;
    table[at + 2] = s.first;
    table[at + 3] = s.restart;
    table[at + 4] = s.highest;
    table[at + 5] = s.samples;
    table[at + 6] = s.missing;
}

#[tactic(auto, unfolding(crate::specs::Table::stretch_at))]
fn stored(table: &[u64; TABLE], i: usize) -> Stretch
    requires { i < 4096 }
    ensures { result ≡ stretch_at table.now i }
{
    let at = 7 * i;
    Stretch {
        at: table[at],
        last: table[at + 1],
        first: table[at + 2],
        restart: table[at + 3],
        highest: table[at + 4],
        samples: table[at + 5],
        missing: table[at + 6],
    }
}

// What a table holds past its end.
#[tactic(auto, unfolding(crate::specs::Table::stretch_at))]
fn past(table: &[u64], i: usize) -> Stretch
    requires { length table.now ≤ 7 * i }
    ensures { result ≡ stretch_at table.now i }
{
    no_stretch()
}

// The i-th stretch, from 0; one of zeros past the last.
#[tactic(auto, using(crate::proofs::Tables::past_them, crate::proofs::Tables::last_at, crate::proofs::Tables::stored_at))]
pub fn stretch(table: &[u64; TABLE], a: Account, i: usize) -> Stretch
    ensures { result ≡ slice_index_or (stretches_of table.now a) i blank }
{
    if i >= a.stretches {
        return no_stretch();
    }
    if i == a.stretches - 1 {
        return a.last;
    }
    if i < STRETCHES {
        return stored(table, i);
    }
    past(&table[..], i)
}

#[tactic(auto, unfolding(base::specs::Pick::pick))]
fn another(table: &mut [u64; TABLE], a: &mut Account, x: Record) -> Result<(), Full>
    requires { 0 < a.old.stretches }
    ensures value { record { account = a.new; fits = is_ok result } ≡ begins a.old x }
    ensures table_after { table.new ≡ table_by Restart table.old a.old }
{
    if a.stretches >= STRETCHES {
        return Err(Full);
    }
    store(&mut table[..], 7 * (a.stretches - 1), a.last);
    a.stretches += 1;
    a.last = first(x);
    Ok(())
}

// An arrival, noted: in the last stretch, or as the first of another.
#[tactic(auto, unfolding(base::specs::Pick::pick, crate::specs::Table::note_in, crate::specs::Table::table_in))]
pub fn note(table: &mut [u64; TABLE], a: &mut Account, x: Record) -> Result<(), Full>
    ensures value { record { account = a.new; fits = is_ok result } ≡ note_in a.old x }
    ensures table_after { table.new ≡ table_in table.old a.old x }
{
    if a.stretches == 0 {
        a.stretches = 1;
        a.last = first(x);
        return Ok(());
    }
    match x.event {
        Event::InOrder | Event::Gap => {
            a.last = more(a.last, x);
            Ok(())
        }
        Event::Stale => Ok(()),
        Event::Restart => another(table, a, x),
    }
}

// So many pairs more were handed out.
pub fn hand(a: &mut Account, pairs: u64)
    ensures { a.new ≡ handing a.old pairs }
{
    a.handed = a.handed.wrapping_add(pairs);
}
