// One call, from its numbers and its own parts of the lent buffers.
ghost use Rattle.std.specs.Prelude.{◌≡◌, true, [], ◌≤◌, eqb};
ghost use Rattle.base.specs.Pick.{pick};
ghost use Rattle.model.specs.Host.{Begin, Pass, Arrival, Take, Close, TakeMissing, TakeDiscontinuity, TakeStalled};
ghost use Rattle.model.specs.Session.{step};
ghost use Rattle.model.specs.Command.{streams_as};
ghost use Rattle.model.specs.Gives.{joined, incoming, pass_streams, arrival_streams, close_streams};
ghost use Rattle.encoding.specs.Words.{sender_of, is_call, lends_packets, call_of};
ghost use Rattle.turns.specs.Reply.{Replies, Keeps};

use answers::{Code, of_arrival, of_begin, of_close, of_flag, of_pass, of_slot, of_take};
use encoding::kind::Kind;
use encoding::lent::Call;
use encoding::words::IPV6;
use model::answer::{ArrivalAnswer, PassAnswer, Refusal};
use model::command::Streams;
use model::incoming::Incoming;
use model::sender::Sender;
use model::session::Session;
use sending::send::no_streams;
use stream::F32_PER_DATAGRAM;

// What a call gave: its answer, and the streams that it wrote.
#[derive(Clone, Copy)]
pub(crate) struct Replied {
    pub(crate) answer: Code,
    pub(crate) streams: Streams,
}

// Of a call that is lent no packets.
fn plain(answer: Code) -> Replied
    ensures { result ≡ record { answer = answer; streams = streams_as [] } }
{
    Replied {
        answer,
        streams: no_streams(),
    }
}

fn begin(s: &mut Session, now: u64) -> Replied
    ensures { Keeps result s.old s.new [] (Begin now) }
{
    plain(of_begin(session::begin::begin(s, now)))
}

fn streams_of_pass(a: Result<PassAnswer, Refusal>) -> Streams
    ensures { result ≡ pass_streams a }
{
    match a {
        Ok(PassAnswer::Sent(streams)) => streams,
        _ => no_streams(),
    }
}

fn pass(s: &mut Session, reading: u64, packets: &mut [u8]) -> Replied
    ensures { Keeps result s.old s.new packets.new (Pass reading packets.old) }
{
    let a = passing::pass::pass(s, reading, packets);
    Replied {
        answer: of_pass(a),
        streams: streams_of_pass(a),
    }
}

fn sender(address: u64, port: u64) -> Sender
    requires { (address ≤ 4294967296) × (port ≤ 65535) }
    ensures { result ≡ sender_of address port }
{
    if address == IPV6 {
        return Sender::V6;
    }
    Sender::V4 {
        ip: address as u32,
        port: port as u16,
    }
}

fn streams_of_arrival(a: Result<ArrivalAnswer, Refusal>) -> Streams
    ensures { result ≡ arrival_streams a }
{
    match a {
        Ok(ArrivalAnswer::Status(streams)) => streams,
        _ => no_streams(),
    }
}

fn arrival(
    s: &mut Session,
    samples: &mut [f32; F32_PER_DATAGRAM],
    c: Call,
    packets: &mut [u8],
) -> Replied
    requires { is_call c.words ≡ true }
    ensures { Replies result s.new samples.new packets.new []
        (step (joined s.old samples.old)
        (Arrival
        (incoming c.entry.words.reading c.entry.words.later (sender_of c.entry.words.address c.entry.words.port)
        c.entry.octets.now c.entry.numbers.now)
        packets.old)) }
{
    let w = c.words;
    let from = sender(w.address, w.port);
    let incoming = Incoming {
        reading: w.reading,
        later: w.later,
        from,
        datagram: c.octets,
        waiting: c.numbers,
    };
    let a = arriving::arrival::arrival(s, samples, incoming, packets);
    Replied {
        answer: of_arrival(a),
        streams: streams_of_arrival(a),
    }
}

fn take(
    s: &mut Session,
    samples: &[f32; F32_PER_DATAGRAM],
    reading: u64,
    places: &mut [f32],
) -> Replied
    ensures { Replies result s.new samples.now [] places.new
        (step (joined s.old samples.now) (Take reading places.old)) }
{
    plain(of_take(session::take::take(s, samples, reading, places)))
}

fn close(s: &mut Session, packets: &mut [u8]) -> Replied
    ensures { Keeps result s.old s.new packets.new (Close packets.old) }
{
    let a = session::close::close(s, packets);
    Replied {
        answer: of_close(a),
        streams: a.unwrap_or(no_streams()),
    }
}

fn missing(s: &mut Session) -> Replied
    ensures { Keeps result s.old s.new [] TakeMissing }
{
    plain(of_slot(session::drain::take_missing_samples(s)))
}

fn discontinuity(s: &mut Session) -> Replied
    ensures { Keeps result s.old s.new [] TakeDiscontinuity }
{
    plain(of_slot(session::drain::take_discontinuity(s)))
}

fn stalled(s: &mut Session) -> Replied
    ensures { Keeps result s.old s.new [] TakeStalled }
{
    plain(of_flag(session::drain::take_stalled(s)))
}

// The call of these numbers. Buffers that its kind doesn't lend are left alone.
pub(crate) fn call(
    s: &mut Session,
    samples: &mut [f32; F32_PER_DATAGRAM],
    c: Call,
    packets: &mut [u8],
    places: &mut [f32],
) -> Replied
    requires { is_call c.words ≡ true }
    ensures { Replies result s.new samples.new (pick (lends_packets c.entry.words.kind) packets.new [])
        (pick (eqb c.entry.words.kind 3) places.new [])
        (step (joined s.old samples.old)
        (call_of c.entry.words c.entry.octets.now c.entry.numbers.now packets.old places.old)) }
{
    let w = c.words;
    // a call is of one of the kinds, so that the last stands for no other
    match Kind::of(w.kind).unwrap_or(Kind::TakeStalled) {
        Kind::Begin => begin(s, w.reading),
        Kind::Pass => pass(s, w.reading, packets),
        Kind::Arrival => arrival(s, samples, c, packets),
        Kind::Take => take(s, samples, w.reading, places),
        Kind::Close => close(s, packets),
        Kind::TakeMissing => missing(s),
        Kind::TakeDiscontinuity => discontinuity(s),
        Kind::TakeStalled => stalled(s),
    }
}
