// The three drains: each returns and empties what it names. They are never refused.
ghost use Rattle.std.specs.Prelude.{◌≡◌, []};
ghost use Rattle.model.specs.Answer.{slot, flag};
ghost use Rattle.model.specs.State.{replied};
ghost use Rattle.model.specs.Drain as Drain;

use model::session::Session;

// What gaps below half a second have missed since this was last asked, in samples: the caller makes up for them, for instance by
// silence. None: none was told; Some(0) is another thing. It is never refused, and works after Close.
pub fn take_missing_samples(s: &mut Session) -> Option<u64>
    ensures { replied (slot result) [] [] [] s.new ≡ Drain.take_missing s.old }
{
    s.receiver.pending.missing.take()
}

// What longer gaps and restarts have missed since this was last asked, in samples: the stream broke off there, and the caller starts
// anew. None: none was told; Some(0) is a restart that missed nothing. It is never refused, and works after Close.
pub fn take_discontinuity(s: &mut Session) -> Option<u64>
    ensures { replied (slot result) [] [] [] s.new ≡ Drain.take_discontinuity s.old }
{
    s.receiver.pending.discontinuity.take()
}

// Whether a soft stall was told since this was last asked: a stream that delivered has fallen quiet. It is told once, and again only
// after a further Take. It is never refused, and works after Close.
pub fn take_stalled(s: &mut Session) -> bool
    ensures { replied (flag result) [] [] [] s.new ≡ Drain.take_stalled s.old }
{
    s.receiver.stall.take()
}
