// Packets that are due: keepalives whose interval has passed, and an attenuation step's, as the Rust's mod.rs has them.
#![tactic(auto)]

ghost use Rattle.std.specs.Prelude.{◌≡◌, ◌-◌, length, nat_le};
ghost use Rattle.base.specs.Pick.{pick};
ghost use Rattle.model.specs.Sending as Sending;
ghost use Rattle.sending.specs.Progress.{Sends, HasRoom};

use attenuator::{AttenuationStep, Controller};
use sending::send::{Progress, send};
use wire::command::Stream;

// The keepalives' intervals, in nanoseconds.
const HIGH_PRIORITY_EVERY: u64 = 100_000_000;

const RX_TX_SPECIFIC_EVERY: u64 = 200_000_000;

const GENERAL_EVERY: u64 = 800_000_000;

// Whether the interval of a clock has passed; it runs anew from this reading then.
fn is_due(clock: &mut u64, reading: u64, every: u64) -> bool
    ensures { (result ≡ nat_le every (reading - clock.old)) × (clock.new ≡ pick result reading clock.old) }
{
    if reading.saturating_sub(*clock) < every {
        return false;
    }
    *clock = reading;
    true
}

fn high_priority_if_due(p: &mut Progress, reading: u64, packets: &mut [u8])
    requires { HasRoom 1444 1 p.old (length packets.old) }
    ensures { Sends (Sending.high_if_due reading p.old.common) p.old packets.old p.new packets.new }
{
    let clocks = &mut p.common.clocks;
    if is_due(&mut clocks.high_priority, reading, HIGH_PRIORITY_EVERY) {
        send(p, Stream::HighPriority, true, packets)
    }
}

// Receive and transmit share a clock.
fn rx_tx_specific_if_due(p: &mut Progress, reading: u64, packets: &mut [u8])
    requires { HasRoom 1504 2 p.old (length packets.old) }
    ensures { Sends (Sending.rx_tx_if_due reading p.old.common) p.old packets.old p.new packets.new }
{
    let clocks = &mut p.common.clocks;
    if is_due(&mut clocks.rx_tx_specific, reading, RX_TX_SPECIFIC_EVERY) {
        send(p, Stream::RxSpecific, true, packets);
        send(p, Stream::TxSpecific, true, packets)
    }
}

fn general_if_due(p: &mut Progress, reading: u64, packets: &mut [u8])
    requires { HasRoom 60 1 p.old (length packets.old) }
    ensures { Sends (Sending.general_if_due reading p.old.common) p.old packets.old p.new packets.new }
{
    let clocks = &mut p.common.clocks;
    if is_due(&mut clocks.general, reading, GENERAL_EVERY) {
        send(p, Stream::General, true, packets)
    }
}

// Each command stream again whose interval has passed.
fn send_keepalive_if_due(p: &mut Progress, reading: u64, packets: &mut [u8])
    requires { HasRoom 3008 4 p.old (length packets.old) }
    ensures { Sends (Sending.keepalive reading p.old.common) p.old packets.old p.new packets.new }
{
    high_priority_if_due(p, reading, packets);
    rx_tx_specific_if_due(p, reading, packets);
    general_if_due(p, reading, packets)
}

// What the controller made of a reading: a step's high priority packet has the new level, and the keepalive is due again 100 ms from
// there.
pub fn apply_step(
    p: &mut Progress,
    controller: Controller,
    step: Option<AttenuationStep>,
    reading: u64,
    packets: &mut [u8],
)
    requires { HasRoom 1444 1 p.old (length packets.old) }
    ensures { Sends (Sending.stepped reading (record { step = step; controller = controller }) p.old.common) p.old packets.old
        p.new packets.new }
{
    p.common.attenuation = Some(controller);
    match step {
        None => {}
        Some(_) => {
            p.common.clocks.high_priority = reading;
            send(p, Stream::HighPriority, true, packets)
        }
    }
}

// Lowers the attenuation where the quiet time is over.
fn tick_attenuation(p: &mut Progress, reading: u64, packets: &mut [u8])
    requires { HasRoom 1444 1 p.old (length packets.old) }
    ensures { Sends (Sending.tick reading p.old.common.attenuation p.old.common) p.old packets.old p.new packets.new }
{
    if let Some(mut controller) = p.common.attenuation {
        let step = controller.tick(reading);
        apply_step(p, controller, step, reading, packets)
    }
}

// Keepalives, then an attenuation step's packet.
pub fn send_due(p: &mut Progress, reading: u64, packets: &mut [u8])
    requires { HasRoom 4452 5 p.old (length packets.old) }
    ensures { Sends (Sending.due_packets reading p.old.common) p.old packets.old p.new packets.new }
{
    send_keepalive_if_due(p, reading, packets);
    tick_attenuation(p, reading, packets)
}
