// A malformed datagram: counted, and past the limit the read closes.
ghost use Rattle.std.specs.Prelude.{ℕ, ◌≡◌, List, Ok};
ghost use Rattle.model.specs.Answer.{arrival_answer};
ghost use Rattle.model.specs.Arrival.{with_one_more, heard_malformed};
ghost use Rattle.model.specs.Gives.{Gives, arrival_streams};

use model::answer::ArrivalAnswer;
use model::session::{Common, Session};
use receiving::read::shut;

// One more malformed: the consecutive count saturates.
fn note_malformed(c: &mut Common)
    ensures { c.new ≡ with_one_more c.old }
{
    c.health.record_malformed();
    c.consecutive_malformed = c.consecutive_malformed.saturating_add(1);
}

// Where the consecutive count is now the limit or more, the read closes.
pub(crate) fn malformed(s: &mut Session) -> ArrivalAnswer
    ensures { (d : List ℕ) → Gives (arrival_answer (Ok result)) (arrival_streams (Ok result)) d s.new (heard_malformed s.old d) }
{
    note_malformed(&mut s.common);
    if s.common.consecutive_malformed < s.common.settings.max_consecutive_malformed {
        return ArrivalAnswer::Malformed;
    }
    shut(&mut s.receiver);
    ArrivalAnswer::MalformedLimit
}
