// The queue: the samples that wait, in the places of the lent array from the queue's position on.
ghost use Rattle.std.specs.Prelude.{◌≡◌, ◌-◌, min, length, take, drop};
ghost use Rattle.octets.specs.Written.{written};
ghost use Rattle.model.specs.State as State;
ghost use Rattle.model.specs.Take as Take;

use super::read::shut;
use model::receiver::Receiver;
use stream::SAMPLES_PER_DATAGRAM;

// The I/Q pairs of a datagram, and so of the lent samples.
const PAIRS: usize = SAMPLES_PER_DATAGRAM as usize;

// How many samples wait.
pub fn left(r: Receiver) -> usize
    ensures { result ≡ State.left r }
{
    PAIRS.saturating_sub(r.queue_pos)
}

pub fn waits(r: Receiver) -> bool
    ensures { result ≡ State.waits r }
{
    0 < left(r)
}

// The numbers of q from `from` on, at most n, to the front of `out` as far as it has room.
pub fn copy_out(q: &[f32], from: usize, n: usize, out: &mut [f32])
    ensures { out.new ≡ written out.old 0 (take (min n (length out.old)) (drop from q.now)) }
{
    let count = n.min(out.len()).min(q.len().saturating_sub(from));
    for i in 0..count {
        out[i] = q[from + i];
    }
}

// n pairs were handed out, or as many as waited.
pub fn handed(r: &mut Receiver, now: u64, n: usize)
    ensures { r.new ≡ Take.handed r.old now (min n (State.left r.old)) }
{
    let pairs = n.min(left(*r));
    shut(r);
    r.stall.note_delivery();
    r.queue_pos += pairs;
    r.read_returned = now;
}
