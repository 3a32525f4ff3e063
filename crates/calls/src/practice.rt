// The practice radio beside the session (2026-02): it reads every packet that the calls of a list write, as a set would.
ghost use Rattle.std.specs.Prelude.{◌≡◌, min, slice_index};
ghost use Rattle.calls.specs.Practised as Practised;

use answers::STREAMS;
use console::output::Output;
use desk::desk::Request;
use encoding::lent::Given;
use radio::listen::read_commands;
use radio::state::{HighPriority, Radio};
use telling::radio::tell as tell_radio;

// The offsets of the streams that an answer lists stand behind their number, in five places.
const OFFSETS: usize = STREAMS + 1;

const MOST: usize = 5;

// What the radio keeps, and how many packets it refused since `open`. Each of these is a fault of a call, and is told.
#[derive(Clone, Copy)]
pub(crate) struct Practice {
    radio: Radio,
    refused: u64,
}

// As `open` leaves it.
pub(crate) fn untold() -> Practice
    ensures { result ≡ Practised.untold }
{
    Practice {
        radio: Radio::new(),
        refused: 0,
    }
}

// What is no octet is no stream's offset either.
fn offset(x: u64) -> u8
    ensures { result ≡ Practised.octet x }
{
    x.min(255) as u8
}

// One by one: to map them an array of five would have to be copied first.
fn offsets_of(answers: &[u64; 8]) -> [u8; MOST]
    ensures { result ≡ Practised.places_of answers.now }
{
    [
        offset(answers[OFFSETS]),
        offset(answers[OFFSETS + 1]),
        offset(answers[OFFSETS + 2]),
        offset(answers[OFFSETS + 3]),
        offset(answers[OFFSETS + 4]),
    ]
}

fn count_of(answers: &[u64; 8]) -> usize
    ensures { result ≡ min (slice_index answers.now 2) 5 }
{
    answers[STREAMS].min(MOST as u64) as usize
}

// After the packets that an answer lists.
fn heard(p: Practice, packets: &[u8; 8192], answers: &[u64; 8]) -> Practice
    ensures { result ≡ Practised.heard p packets.now answers.now }
{
    let offsets = offsets_of(answers);
    let n = count_of(answers);
    let got = read_commands(p.radio, &offsets[..n], packets);
    let refused = (n - got.accepted) as u64;
    Practice {
        radio: got.radio,
        refused: p.refused.wrapping_add(refused),
    }
}

// After a line that asks for this, and is run.
pub(crate) fn listened(p: Practice, asks: Request, given: &Given) -> Practice
    ensures { result ≡ Practised.listened asks p given.now.packets given.now.answers }
{
    match asks {
        Request::Call => heard(p, &given.packets, &given.answers),
        Request::Open => untold(),
        _ => p,
    }
}

// The numbers of a general, a receive and a transmit packet, and the count of a high priority one.
fn counted(r: Radio) -> [u64; 7] {
    let g = r.general;
    let rx = r.rx_specific;
    let tx = r.tx_specific;
    let h = r.high_priority;
    [
        u64::from(g.seq),
        u64::from(g.filter_enable),
        u64::from(rx.seq),
        u64::from(rx.adc_count),
        u64::from(rx.rate_khz),
        u64::from(tx.seq),
        u64::from(h.seq),
    ]
}

// Those of a high priority packet behind its run, and how many packets were refused.
fn tuned(h: HighPriority, refused: u64) -> [u64; 6] {
    [
        u64::from(h.ddc_phase),
        u64::from(h.duc_phase),
        u64::from(h.alex1),
        u64::from(h.alex0),
        u64::from(h.attenuation),
        refused,
    ]
}

pub(crate) fn tell(p: Practice, out: &mut Output) {
    let h = p.radio.high_priority;
    tell_radio(out, &counted(p.radio), h.run, &tuned(h, p.refused))
}
