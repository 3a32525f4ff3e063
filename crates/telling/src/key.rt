// The rows of a session's account (tally::rows), as lines of text.
use console::output::Output;
use tally::rows::Row;

// The words of each row's line, in the order of their numbers: STRETCH, TOTAL, COUNTERS, GAP. # is the next of the row's numbers.
const LINES: [u8; 225] = *b"stretch # at # last # first # highest # samples # missing # restart #\n\
    total stretches # samples # missing # restart # handed # waiting #\n\
    counters dropped # gaps # malformed # loss #\n\
    gap stretch # after # datagrams # samples #";

pub fn tell(out: &mut Output, r: Row) {
    out.nth_filled(&LINES, b'\n', r.line, &r.numbers);
    out.put(b"\n")
}
