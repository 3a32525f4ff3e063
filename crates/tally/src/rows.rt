// All that is told of a session's account: rows of numbers, a stretch each, then the sums, then the session's counters.
ghost use Rattle.std.specs.Prelude.{◌≡◌};
ghost use Rattle.tally.specs.Stretches.{sums_of};
ghost use Rattle.tally.specs.Table.{stretches_of};
ghost use Rattle.tally.specs.Rows.{row_at, stretch_row, total_row, counters_row, gap_row};

use super::account::{Account, TABLE, stretch};
use super::stretch::{Stretch, Sums, plus};

// What a row is: which of the lines of text, too.
pub const STRETCH: u64 = 0;

pub const TOTAL: u64 = 1;

pub const COUNTERS: u64 = 2;

pub const GAP: u64 = 3;

// A row's numbers, from the first place on; the places that it doesn't use are 0.
#[derive(Clone, Copy)]
pub struct Row {
    pub line: u64,
    pub numbers: [u64; 8],
}

// What is read off a session where its account is told: the pairs that wait, its three counters, and its loss total.
#[derive(Clone, Copy)]
pub struct End {
    pub waiting: u64,
    pub dropped: u64,
    pub gaps: u64,
    pub malformed: u64,
    pub loss: u64,
}

fn of_stretch(k: u64, s: Stretch) -> Row
    ensures { result ≡ stretch_row k s }
{
    Row {
        line: STRETCH,
        numbers: [
            k, s.at, s.last, s.first, s.highest, s.samples, s.missing, s.restart,
        ],
    }
}

fn of_total(n: u64, t: Sums, handed: u64, waiting: u64) -> Row
    ensures { result ≡ total_row n t handed waiting }
{
    Row {
        line: TOTAL,
        numbers: [n, t.samples, t.missing, t.restart, handed, waiting, 0, 0],
    }
}

fn of_counters(e: End) -> Row
    ensures { result ≡ counters_row e }
{
    Row {
        line: COUNTERS,
        numbers: [e.dropped, e.gaps, e.malformed, e.loss, 0, 0, 0, 0],
    }
}

fn sums(table: &[u64; TABLE], a: Account) -> Sums
    ensures { result ≡ sums_of (stretches_of table.now a) }
{
    let mut t = Sums {
        samples: 0,
        missing: 0,
        restart: 0,
    };
    for i in 0..a.stretches {
        t = plus(t, stretch(table, a, i));
    }
    t
}

// The k-th row, from 0: as many stretches as there are, the sums, the counters.
#[tactic(auto, using(crate::proofs::Tables::length_stretches), unfolding(base::specs::Pick::pick, crate::specs::Rows::row_at))]
pub fn nth_row(table: &[u64; TABLE], a: Account, e: End, k: usize) -> Row
    ensures { result ≡ row_at (stretches_of table.now a) a.handed e k }
{
    let n = a.stretches;
    if k < n {
        return of_stretch(k as u64 + 1, stretch(table, a, k));
    }
    if k == n {
        return of_total(n as u64, sums(table, a), a.handed, e.waiting);
    }
    of_counters(e)
}

// The gap that an arrival was told, so many datagrams and samples, from the account before it: in the last stretch, after its
// highest number.
pub fn gap_row(a: Account, datagrams: u64, samples: u64) -> Row
    ensures { result ≡ gap_row a.stretches a.last datagrams samples }
{
    let last = a.last;
    Row {
        line: GAP,
        numbers: [
            a.stretches as u64,
            last.highest,
            datagrams,
            samples,
            0,
            0,
            0,
            0,
        ],
    }
}
