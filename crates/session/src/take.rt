// Take: as many pairs of the queue as the buffer has room for; then the read is closed and delivering is on.
ghost use Rattle.std.specs.Prelude.{◌≡◌, []};
ghost use Rattle.model.specs.Answer.{take_answer};
ghost use Rattle.model.specs.State.{replied};
ghost use Rattle.model.specs.Take as Take;
ghost use Rattle.model.specs.Gives.{joined};

use model::answer::Refusal;
use model::session::Session;
use receiving::queue::{copy_out, handed, left, waits};
use receiving::read::not_reading;
use stream::F32_PER_DATAGRAM;

// Hands out waiting samples, at `reading`: `samples` are the 476 f32 lent beside the session, `buffer` gets I, Q pairs from its front,
// as many as it has room for. Ok: so many pairs; the read is closed. What is left waits for the next read's Take. NotNow (10),
// ReadingFell (11), NoSampleRoom (16: fewer than 2 f32) and NothingWaits (17) refuse, and change nothing.
pub fn take(
    s: &mut Session,
    samples: &[f32; F32_PER_DATAGRAM],
    reading: u64,
    buffer: &mut [f32],
) -> Result<usize, Refusal>
    ensures { replied (take_answer result) [] [] buffer.new (joined s.new samples.now) ≡
        Take.take_out (joined s.old samples.now) reading buffer.old }
{
    if not_reading(s.common.closed, s.receiver) {
        return Err(Refusal::NotNow);
    }
    if reading < s.common.last_reading {
        return Err(Refusal::ReadingFell);
    }
    if buffer.len() < 2 {
        return Err(Refusal::NoSampleRoom);
    }
    if !waits(s.receiver) {
        return Err(Refusal::NothingWaits);
    }
    let n = (buffer.len() / 2).min(left(s.receiver));
    copy_out(samples, 2 * s.receiver.queue_pos, 2 * n, buffer);
    s.common.last_reading = reading;
    handed(&mut s.receiver, reading, n);
    Ok(n)
}
