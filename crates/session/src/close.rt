// Close: run is turned off, by two high priority packets.
ghost use Rattle.std.specs.Prelude.{◌≤◌, length, Ok};
ghost use Rattle.model.specs.Answer.{close_answer};
ghost use Rattle.model.specs.Close as Close;
ghost use Rattle.model.specs.Gives.{Gives, close_streams};

use model::answer::Refusal;
use model::command::Streams;
use model::session::Session;
use sending::send::{send_stop, start};

// Two high priority packets.
const CLOSE_LEN: usize = 2888;

// The packets are written, and the session is closed; the queue, the slots and the stall flag stay, and no clock moves.
fn stop(s: &mut Session, packets: &mut [u8]) -> Streams
    requires { 2888 ≤ length packets.old }
    ensures { Gives (close_answer (Ok result)) result packets.new s.new (Close.stop s.old packets.old) }
{
    let mut p = start(s.common);
    send_stop(&mut p, packets);
    s.common = p.common;
    s.common.closed = true;
    p.streams
}

// Closes the session, with at least 2888 octets lent for packets. Ok: send the two packets that these streams list, which stop the
// radio; the drains can still be asked, every other call is refused by 10. NotNow (10, closed already) and NoPacketRoom (15) refuse,
// and change nothing. What waits and is not taken before is lost to the caller.
pub fn close(s: &mut Session, packets: &mut [u8]) -> Result<Streams, Refusal>
    ensures { Gives (close_answer result) (close_streams result) packets.new s.new (Close.close s.old packets.old) }
{
    if s.common.closed {
        return Err(Refusal::NotNow);
    }
    if packets.len() < CLOSE_LEN {
        return Err(Refusal::NoPacketRoom);
    }
    Ok(stop(s, packets))
}
