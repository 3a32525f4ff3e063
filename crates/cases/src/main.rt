// Runs cases of text, a line each, and tells of each whether it came out as expected.
#![tactic(auto)]

mod functions;
mod one;
mod run;
mod tally;

use console::input::ROOM as INPUT;
use console::output::Output;

fn main(rt: HostRuntime) {
    let mut room = [0u8; INPUT];
    let mut out = Output::new(rt.stdout(), rt.stderr());
    run::run(&mut rt.stdin(), &mut room, &mut out);
}
