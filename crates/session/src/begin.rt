// Begin: a read opens.
ghost use Rattle.std.specs.Prelude.{◌≡◌, []};
ghost use Rattle.model.specs.Answer.{begin_answer};
ghost use Rattle.model.specs.State.{replied};
ghost use Rattle.model.specs.Begin as Begin;

use model::answer::Refusal;
use model::session::Session;
use receiving::read::{begun_by, not_idle};

// Opens a read, at the reading `now`. After a pause of 100 ms or more since the last Take it opens or refills the park window. Ok:
// call `pass` and `arrival` by turns, until one of them closes the read or samples wait. NotNow (10): the session is closed, or a
// read is open already. ReadingFell (11): a reading may not be below the last accepted one. A refusal changes nothing.
pub fn begin(s: &mut Session, now: u64) -> Result<(), Refusal>
    ensures { replied (begin_answer result) [] [] [] s.new ≡ Begin.begin s.old now }
{
    if not_idle(s.common.closed, s.receiver) {
        return Err(Refusal::NotNow);
    }
    if now < s.common.last_reading {
        return Err(Refusal::ReadingFell);
    }
    s.common.last_reading = now;
    begun_by(&mut s.receiver, s.common.settings.park_window, now);
    Ok(())
}
