// What a session gave, once it is run, as lines of text.
use super::run::Sitting;
use super::sessions::{Left, Tuning};
use batch::list::List;
use batch::replies::Answers;
use batch::{accounts, replies};
use console::output::Output;
use desk::desk::{Course, Desk, Request};

// A session that is longer than the rooms, told by the line of its `open`. Nothing more is read or run.
pub(crate) fn too_long(d: &mut Desk, sitting: Sitting, out: &mut Output) {
    out.filled(
        b"error line #: there is no room for the calls of this session\n",
        &[sitting.line],
    );
    d.asks = Request::Nothing;
    d.course = Course::Over;
}

fn put_tuned(out: &mut Output, t: Tuning) {
    out.filled(
        b"reads rate # centre # attenuation #\n",
        &[t.rate, t.centre, t.attenuation],
    )
}

// That a session's settings are refused, that there is no room, or its answers, account and what is read off it.
pub(crate) fn tell(
    d: &mut Desk,
    sitting: Sitting,
    left: Left,
    list: &List,
    answers: &Answers,
    out: &mut Output,
) {
    match left {
        Left::Refused(refused) => out.filled(b"refused #\n", &[refused]),
        Left::NotRun => too_long(d, sitting, out),
        Left::Ran { counted, tuned } => {
            out.put(b"opened\n");
            replies::tell(list, answers, out);
            accounts::tell(list, answers, counted, out);
            put_tuned(out, tuned)
        }
    }
}
