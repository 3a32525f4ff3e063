// Pass does the first that applies: Ready where samples wait, soft stall, hard stall, the packets that are due.
ghost use Rattle.std.specs.Prelude.{◌≤◌, length, Ok};
ghost use Rattle.model.specs.Answer.{pass_answer, done};
ghost use Rattle.model.specs.Answer as Answer;
ghost use Rattle.model.specs.Pass as Pass;
ghost use Rattle.model.specs.Sending.{due_packets, wrote};
ghost use Rattle.model.specs.Gives.{Gives, pass_streams};

use keepalive::send_due;
use model::answer::{PassAnswer, Refusal};
use model::command::Streams;
use model::session::Session;
use receiving::queue::waits;
use receiving::read::{Quiet, not_reading, quiet_at, shut, stalled};
use sending::send::start;

// The four keepalives and a step's packet.
const PASS_LEN: usize = 4452;

// What is due is written.
fn sent(s: &mut Session, reading: u64, packets: &mut [u8]) -> Streams
    requires { 4452 ≤ length packets.old }
    ensures { Gives (done Answer.sent) result packets.new s.new
        (wrote (done Answer.sent) s.old packets.old (due_packets reading s.old.common)) }
{
    let mut p = start(s.common);
    send_due(&mut p, reading, packets);
    s.common = p.common;
    p.streams
}

// After every refusal, of a session whose last reading is this one.
fn passed(s: &mut Session, reading: u64, packets: &mut [u8]) -> PassAnswer
    requires { 4452 ≤ length packets.old }
    ensures { Gives (pass_answer (Ok result)) (pass_streams (Ok result)) packets.new s.new
        (Pass.passed s.old reading packets.old) }
{
    if waits(s.receiver) {
        return PassAnswer::Ready;
    }
    let settings = s.common.settings;
    let quiet = quiet_at(
        s.receiver,
        reading,
        settings.soft_after,
        settings.stall_after,
    );
    match quiet {
        Quiet::Soft => {
            stalled(&mut s.receiver);
            PassAnswer::SoftStall
        }
        Quiet::Hard => {
            shut(&mut s.receiver);
            PassAnswer::HardStall
        }
        Quiet::Short => PassAnswer::Sent(sent(s, reading, packets)),
    }
}

// A turn of an open read, at `reading`, with at least 4452 octets lent for packets, also where none is written. Ready: samples wait,
// take them. Sent: send the packets that its streams list, one after another from the buffer's front, each to its stream's port
// (`model::command::destination`); none may be listed. SoftStall, HardStall: the read is closed, begin another. NotNow (10),
// ReadingFell (11) and NoPacketRoom (15) refuse, and change nothing.
pub fn pass(s: &mut Session, reading: u64, packets: &mut [u8]) -> Result<PassAnswer, Refusal>
    ensures { Gives (pass_answer result) (pass_streams result) packets.new s.new
        (Pass.pass s.old reading packets.old) }
{
    if not_reading(s.common.closed, s.receiver) {
        return Err(Refusal::NotNow);
    }
    if reading < s.common.last_reading {
        return Err(Refusal::ReadingFell);
    }
    if packets.len() < PASS_LEN {
        return Err(Refusal::NoPacketRoom);
    }
    s.common.last_reading = reading;
    Ok(passed(s, reading, packets))
}
