// What is told of a case, in the gathered output.
use super::answer::Answer;
use console::output::Output;

// The front of a case's line: where it stands in the input, and the function's name.
pub fn case(out: &mut Output, line: u64, name: &[u8]) {
    out.filled(b"# ", &[line]);
    out.put(name);
    out.put(b" ")
}

pub fn as_expected(out: &mut Output) {
    out.put(b"as expected\n")
}

pub fn not_understood(out: &mut Output) {
    out.put(b"not understood\n")
}

// A line that the room for one does not hold.
pub fn too_long(out: &mut Output, line: u64) {
    out.filled(b"# is too long, and nothing after it is read\n", &[line])
}

// The input failed before this line was whole.
pub fn unread(out: &mut Output, line: u64) {
    out.filled(b"# can't be read\n", &[line])
}

fn marked_octets(out: &mut Output, p: &[u8]) {
    out.put(b"x:");
    for x in p {
        out.named_hex(b"", u64::from(*x), 2);
    }
}

// In the form in which a case gives what is expected.
fn put_answer(out: &mut Output, a: Answer, p: &[u8]) {
    match a {
        Answer::Number(n) => out.number(n),
        Answer::Double(b) => out.named_hex(b"0x", b, 16),
        Answer::Refused(k) => out.named(b"r:", k),
        Answer::Absent => out.put(b"none"),
        Answer::Octets => marked_octets(out, p),
        Answer::Nothing => out.put(b"nothing"),
    }
}

// The answer that came; p is its octets, where it is octets.
pub fn other(out: &mut Output, a: Answer, p: &[u8]) {
    out.put(b"gave ");
    put_answer(out, a, p);
    out.put(b"\n")
}

pub fn total(out: &mut Output, cases: u64, wrong: u64) {
    out.filled(b"# cases, # not as expected\n", &[cases, wrong])
}
