// A status packet: with attenuation on, the controller hears its overload bit.
ghost use Rattle.std.specs.Prelude.{◌≤◌, length, Ok};
ghost use Rattle.model.specs.Answer.{arrival_answer, done, status};
ghost use Rattle.model.specs.Arrival.{heard_status};
ghost use Rattle.model.specs.Sending.{wrote};
ghost use Rattle.model.specs.Sending as Sending;
ghost use Rattle.model.specs.Gives.{Gives, arrival_streams, incoming_of};

use attenuator::{AttenuationStep, Controller};
use keepalive::apply_step;
use model::answer::ArrivalAnswer;
use model::command::Streams;
use model::incoming::Incoming;
use model::session::Session;
use sending::send::start;
use wire::status::{adc_overload_bits, adc0_overload};

// What the controller made of an overload bit; a step up writes its packet.
fn stepped(
    s: &mut Session,
    controller: Controller,
    step: Option<AttenuationStep>,
    later: u64,
    packets: &mut [u8],
) -> Streams
    requires { 1444 ≤ length packets.old }
    ensures { Gives (done status) result packets.new s.new
        (wrote (done status) s.old packets.old (Sending.stepped later (record { step = step; controller = controller }) s.old.common)) }
{
    let mut p = start(s.common);
    apply_step(&mut p, controller, step, later, packets);
    s.common = p.common;
    p.streams
}

// Without automatic attenuation, or of another length, it is ignored. The controller takes the arrival's reading, a step's
// packet the later one.
pub(crate) fn handle_status(s: &mut Session, i: Incoming, packets: &mut [u8]) -> ArrivalAnswer
    requires { 1444 ≤ length packets.old }
    ensures { Gives (arrival_answer (Ok result)) (arrival_streams (Ok result)) packets.new s.new
        (heard_status s.old (incoming_of i.entry) packets.old) }
{
    let Some(mut controller) = s.common.attenuation else {
        return ArrivalAnswer::Ignored;
    };
    let Some(bits) = adc_overload_bits(i.datagram) else {
        return ArrivalAnswer::Ignored;
    };
    let step = controller.observe(adc0_overload(bits), i.reading);
    ArrivalAnswer::Status(stepped(s, controller, step, i.later, packets))
}
