// Reads lists of calls as text (docs/CALLS.md) from standard input, runs each session's calls at once, and writes their answers, the
// session's account and what a user reads off it. The lines `state` and `radio` are no calls, and are skipped.
#![tactic(auto)]

mod line;
mod run;
mod sessions;
mod tell;

fn main(rt: HostRuntime) {
    run::run(&rt);
}
