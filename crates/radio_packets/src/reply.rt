// The discovery reply of a Protocol 2 radio.
ghost use Rattle.std.specs.Prelude.{◌≡◌, false, not, ◌≤◌, length};
ghost use Rattle.octets.specs.Written.{written};
ghost use Rattle.discovery.specs.Reply.{status_number};
ghost use Rattle.radio_packets.specs.Answer.{Wrote};
ghost use Rattle.radio_packets.specs.Reply.{is_written, reply_octets, packet_of};

use super::answer::WriteError;
use discovery::{
    DiscoveryReply, DiscoveryStatus, P2_BOARD, P2_DDC_COUNT, P2_FIRMWARE, P2_MAC, P2_STATUS,
    ReplyAnswer, STATUS_BUSY, STATUS_IDLE,
};

pub const PROTOCOL2_REPLY_LEN: usize = 60;

fn status_octet(status: DiscoveryStatus) -> u8
    ensures { result ≡ status_number status }
{
    match status {
        DiscoveryStatus::Available => STATUS_IDLE,
        DiscoveryStatus::InUse => STATUS_BUSY,
    }
}

// The hardware address.
#[tactic(auto, unfolding(octets::specs::Written::written))]
fn put_mac(out: &mut [u8], mac: &[u8])
    requires { (60 ≤ length out.old) × (length mac.now ≡ 6) }
    ensures { out.new ≡ written out.old 5 mac.now }
{
    out[P2_MAC..P2_MAC + 6].copy_from_slice(mac);
}

// A reply's fields and the address.
fn put_reply(
    status: DiscoveryStatus,
    board: u8,
    firmware: u8,
    receivers: u8,
    mac: &[u8],
    out: &mut [u8],
) -> Result<(), WriteError>
    requires { length mac.now ≡ 6 }
    ensures { Wrote false 60 (reply_octets status board firmware receivers mac.now) out.old result out.new }
{
    if out.len() < PROTOCOL2_REPLY_LEN {
        return Err(WriteError::NoRoom);
    }
    octets::clear(out, PROTOCOL2_REPLY_LEN);
    out[P2_STATUS] = status_octet(status);
    out[P2_BOARD] = board;
    out[P2_FIRMWARE] = firmware;
    out[P2_DDC_COUNT] = receivers;
    put_mac(out, mac);
    Ok(())
}

// Writes the reply to the front of out. Only one of Protocol 2 is written: another, or none, is refused by its value.
#[tactic(auto, unfolding(base::specs::Pick::pick))]
pub fn discovery_reply(reply: Option<DiscoveryReply>, out: &mut [u8]) -> Result<(), WriteError>
    ensures { Wrote (not (is_written reply)) 60 (packet_of reply) out.old result out.new }
{
    let Some(r) = reply else {
        return Err(WriteError::Value);
    };
    match r.answer {
        ReplyAnswer::Protocol1 { .. } => Err(WriteError::Value),
        ReplyAnswer::Protocol2 {
            status,
            board,
            firmware,
            receivers,
        } => put_reply(status, board, firmware, receivers, &r.mac, out),
    }
}
