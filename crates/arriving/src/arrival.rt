// Arrival: malformed, ignored, status or valid I/Q.
ghost use Rattle.std.specs.Prelude.{◌≤◌, length, Ok};
ghost use Rattle.model.specs.Answer.{arrival_answer};
ghost use Rattle.model.specs.Arrival as Arrival;
ghost use Rattle.model.specs.Gives.{Gives, arrival_streams, joined, incoming_of, arrived_by};

use super::malformed::malformed;
use super::route::{Route, routed};
use super::status::handle_status;
use model::answer::{ArrivalAnswer, Refusal};
use model::incoming::Incoming;
use model::session::Session;
use receiving::hear::hear;
use receiving::queue::waits;
use receiving::read::not_reading;
use stream::{F32_PER_DATAGRAM, MAX_BUFFERED_DATAGRAMS};

// A step's packet.
const ARRIVAL_LEN: usize = 1444;

// After every refusal, of a session whose last reading is the later one.
fn arrived(
    s: &mut Session,
    samples: &mut [f32; F32_PER_DATAGRAM],
    i: Incoming,
    packets: &mut [u8],
) -> ArrivalAnswer
    requires { 1444 ≤ length packets.old }
    ensures { Gives (arrival_answer (Ok result)) (arrival_streams (Ok result)) packets.new (joined s.new samples.new)
        (arrived_by (joined s.old samples.old) (incoming_of i.entry) packets.old) }
{
    let settings = s.common.settings;
    match routed(settings.radio_ip, settings.port, i.from, i.datagram) {
        Route::Iq(count) => {
            let heard = hear(
                &mut s.receiver,
                &mut s.common.health,
                samples,
                settings.sample_rate_hz,
                count,
                i,
            );
            // valid I/Q zeroes the consecutive malformed count
            s.common.consecutive_malformed = 0;
            ArrivalAnswer::Iq {
                event: heard.event,
                missing: heard.missing,
            }
        }
        Route::Status => handle_status(s, i, packets),
        Route::Ignored => ArrivalAnswer::Ignored,
        Route::Malformed => malformed(s),
    }
}

// A datagram has come, to an open read in which no samples wait (`Incoming`); at most 8192 numbers may wait behind it. Lend the
// session's 476 f32, and at least 1444 octets for packets, also where none is written. Iq: the event and what it misses; unless it is
// Stale, samples wait now, take them. Status: send the packet if its streams list one. Ignored, Malformed: go on. MalformedLimit: the
// read is closed, begin another. NotNow (10), ReadingFell (11), SamplesWait (12), LaterFell (13), TooManyWaiting (14) and NoPacketRoom
// (15) refuse, and change nothing.
pub fn arrival(
    s: &mut Session,
    samples: &mut [f32; F32_PER_DATAGRAM],
    i: Incoming,
    packets: &mut [u8],
) -> Result<ArrivalAnswer, Refusal>
    ensures { Gives (arrival_answer result) (arrival_streams result) packets.new (joined s.new samples.new)
        (Arrival.arrival (joined s.old samples.old) (incoming_of i.entry) packets.old) }
{
    if not_reading(s.common.closed, s.receiver) {
        return Err(Refusal::NotNow);
    }
    if i.reading < s.common.last_reading {
        return Err(Refusal::ReadingFell);
    }
    if waits(s.receiver) {
        return Err(Refusal::SamplesWait);
    }
    if i.later < i.reading {
        return Err(Refusal::LaterFell);
    }
    if i.waiting.len() as u64 > MAX_BUFFERED_DATAGRAMS {
        return Err(Refusal::TooManyWaiting);
    }
    if packets.len() < ARRIVAL_LEN {
        return Err(Refusal::NoPacketRoom);
    }
    s.common.last_reading = i.later;
    Ok(arrived(s, samples, i, packets))
}
