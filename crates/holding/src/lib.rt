// The session that a program holds, with its account beside it: opened by a line of text, and called by what a line was read as.
#![tactic(auto)]

ghost use Rattle.std.specs.Prelude.{IfOk};
ghost use Rattle.model.specs.Gives.{joined};
ghost use Rattle.encoding.specs.Lists.{lent_by};
ghost use Rattle.examining.specs.Stands.{Stands};
ghost use Rattle.holding.specs.Held.{Opens, Goes};

use encoding::lent::{Asked, Given};
use examining::sitting::{Sitting, Unmarked, Unseated, mark, sit};
use lines::read_open;
use stream::F32_PER_DATAGRAM;
use tally::account::TABLE;

// How many are lent. Their types say it; that an account stands needs it said of the lists.
fn lent(samples: &[f32], table: &[u64]) -> usize {
    samples.len() / 2 + table.len() / 2
}

// By the settings of this line, whose first word is `open`. Where they are accepted its account stands: it is that of the calls which the
// session ran since it was opened, and only such a one is told.
pub fn opened(
    line: &[u8],
    samples: &[f32; F32_PER_DATAGRAM],
    table: &[u64; TABLE],
) -> Result<Sitting, Unseated>
    ensures opens { Opens result line.now }
    ensures stands { IfOk result (λ s. Stands (joined s.session samples.now) table.now s.account) }
{
    let asked = read_open(line);
    lent(&samples[..], &table[..]);
    sit(asked.settings, asked.at)
}

// A call, run and noted. One whose numbers are what a line was read as (lines::read_call) is always run. Ok: the account stands where it
// did before.
pub fn called(
    s: &mut Sitting,
    samples: &mut [f32; F32_PER_DATAGRAM],
    asked: &Asked,
    given: &mut Given,
    table: &mut [u64; TABLE],
) -> Result<(), Unmarked>
    ensures { Goes result s.old s.new samples.old
        (lent_by asked.now.call asked.now.octets asked.now.numbers given.old.packets
        given.old.places)
        given.old.answers given.new.answers given.new.packets given.new.places samples.new
        table.old table.new }
{
    mark(s, samples, asked, given, table)
}
