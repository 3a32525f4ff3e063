// What a line is answered, once it is run: a line of text.
use super::desk::Desk;
use super::key;
use answers::{CODE, GAP, VALUE};
use console::output::Output;
use encoding::lent::Given;
use model::settings::SettingsError;
use tally::account::Account;
use telling::answer;

// The gap's line, where an arrival was told one.
fn put_gap(out: &mut Output, before: Account, answers: &[u64; 8]) {
    let code = answers[CODE];
    if code >= GAP {
        key::put_gap(out, before, code - GAP, answers[VALUE]);
    }
}

impl Desk {
    // A session was just opened, or its settings were refused.
    pub fn tell_opened(&self, answer: Result<(), SettingsError>, out: &mut Output) {
        self.put_number(out);
        match answer {
            Ok(()) => out.put(b"opened\n"),
            Err(e) => out.filled(b"refused #\n", &[e.number()]),
        }
    }

    // The answer of a call of this kind, and the gap's line where it is asked for, from the account before it.
    pub fn tell_called(&self, kind: u64, before: Account, given: &Given, out: &mut Output) {
        self.put_number(out);
        answer::tell(out, kind, &given.answers, &given.packets, &given.places);
        if self.flags.gaps {
            put_gap(out, before, &given.answers);
        }
    }
}
