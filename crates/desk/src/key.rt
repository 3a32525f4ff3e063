// The rows of the account, each as a line of text.
use console::output::Output;
use tally::account::{Account, STRETCHES, TABLE};
use tally::rows::{End, gap_row, nth_row};
use telling::key;

// All of them: the stretches, the sums, the counters.
pub fn put_rows(out: &mut Output, table: &[u64; TABLE], a: Account, e: End) {
    if a.stretches > STRETCHES {
        return;
    }
    for k in 0..a.stretches + 2 {
        key::tell(out, nth_row(table, a, e, k));
    }
}

// The gap that an arrival was told, from the account before it.
pub fn put_gap(out: &mut Output, a: Account, datagrams: u64, missing: u64) {
    key::tell(out, gap_row(a, datagrams, missing))
}
