// Discovery: the Protocol 2 request, and what a radio of either protocol replies. A reply's sender, and so its address on
// the network, is the caller's to know.
#![tactic(auto)]

ghost use Rattle.std.specs.Prelude.{true, ◌≡◌, ◌+◌, ◌≤◌, length, take, drop};
ghost use Rattle.wire.specs.Packet.{Sent};
ghost use Rattle.discovery.specs.Request.{request_packet};
ghost use Rattle.discovery.specs.Reply.{status_number, is_status, reply, told_of, checked, is_p1, is_p2, reply_p1, reply_p2, reply_told};

use wire::packet::PacketError;

pub const PROTOCOL2_REQUEST_LEN: usize = 60;

const P2_REQUEST_COMMAND: usize = 4;

const P2_DISCOVER: u8 = 0x02;

// EF FE
const P1_SIGNATURE: u16 = 0xeffe;

const P1_STATUS: usize = 2;

const P1_MAC: usize = 3;

const P1_FIRMWARE: usize = 9;

const P1_BOARD: usize = 10;

const P1_MIN_REPLY_LEN: usize = 11;

pub const P2_STATUS: usize = 4;

pub const P2_MAC: usize = 5;

pub const P2_BOARD: usize = 11;

pub const P2_FIRMWARE: usize = 13;

pub const P2_DDC_COUNT: usize = 20;

const P2_MIN_REPLY_LEN: usize = 21;

pub const STATUS_IDLE: u8 = 0x02;

pub const STATUS_BUSY: u8 = 0x03;

#[derive(Clone, Copy)]
pub enum DiscoveryStatus {
    Available,
    InUse,
}

#[derive(Clone, Copy)]
pub enum ReplyAnswer {
    Protocol1 {
        status: DiscoveryStatus,
        board: u8,
        firmware: u8,
    },
    Protocol2 {
        status: DiscoveryStatus,
        board: u8,
        firmware: u8,
        receivers: u8,
    },
}

// What a radio replied, and its hardware address.
#[derive(Clone, Copy)]
pub struct DiscoveryReply {
    pub answer: ReplyAnswer,
    pub mac: [u8; 6],
}

// Writes the request to the front of out.
pub fn discovery_request_p2(out: &mut [u8]) -> Result<(), PacketError>
    ensures { Sent 60 request_packet out.old result out.new }
{
    if out.len() < PROTOCOL2_REQUEST_LEN {
        return Err(PacketError::NoRoom);
    }
    octets::clear(out, PROTOCOL2_REQUEST_LEN);
    out[P2_REQUEST_COMMAND] = P2_DISCOVER;
    Ok(())
}

fn is_status(octet: u8) -> bool
    ensures { result ≡ is_status octet }
{
    octet == STATUS_IDLE || octet == STATUS_BUSY
}

// Of an octet that is a status: what another one gives is never told.
fn status_of(octet: u8) -> DiscoveryStatus
    ensures { is_status octet ≡ true → status_number result ≡ octet }
{
    if octet == STATUS_BUSY {
        return DiscoveryStatus::InUse;
    }
    DiscoveryStatus::Available
}

fn mac_at(buf: &[u8], at: usize) -> [u8; 6]
    requires { at + 6 ≤ length buf.now }
    ensures { result ≡ take 6 (drop at buf.now) }
{
    [
        buf[at],
        buf[at + 1],
        buf[at + 2],
        buf[at + 3],
        buf[at + 4],
        buf[at + 5],
    ]
}

// The answer where the octet is a status, else no reply.
#[tactic(auto, unfolding(base::specs::Pick::pick, crate::specs::Reply::checked))]
fn checked(octet: u8, answer: ReplyAnswer, mac: [u8; 6]) -> Option<DiscoveryReply>
    ensures { told_of result ≡ checked octet (reply answer mac) }
{
    if !is_status(octet) {
        return None;
    }
    Some(DiscoveryReply { answer, mac })
}

// Protocol 1's signature, and its fields within the datagram.
fn is_p1(buf: &[u8]) -> bool
    ensures { result ≡ is_p1 buf.now }
{
    if buf.len() < P1_MIN_REPLY_LEN {
        return false;
    }
    octets::get_u16(buf, 0) == P1_SIGNATURE
}

// Protocol 2's four zeros, and its fields within the datagram.
fn is_p2(buf: &[u8]) -> bool
    ensures { result ≡ is_p2 buf.now }
{
    if buf.len() < P2_MIN_REPLY_LEN {
        return false;
    }
    octets::get_u32(buf, 0) == 0
}

fn reply_p1(buf: &[u8]) -> Option<DiscoveryReply>
    requires { 11 ≤ length buf.now }
    ensures { told_of result ≡ reply_p1 buf.now }
{
    let octet = buf[P1_STATUS];
    let answer = ReplyAnswer::Protocol1 {
        status: status_of(octet),
        board: buf[P1_BOARD],
        firmware: buf[P1_FIRMWARE],
    };
    checked(octet, answer, mac_at(buf, P1_MAC))
}

fn reply_p2(buf: &[u8]) -> Option<DiscoveryReply>
    requires { 21 ≤ length buf.now }
    ensures { told_of result ≡ reply_p2 buf.now }
{
    let octet = buf[P2_STATUS];
    let answer = ReplyAnswer::Protocol2 {
        status: status_of(octet),
        board: buf[P2_BOARD],
        firmware: buf[P2_FIRMWARE],
        receivers: buf[P2_DDC_COUNT],
    };
    checked(octet, answer, mac_at(buf, P2_MAC))
}

// What a datagram of any length says as a reply; nothing where it is none (18).
#[tactic(auto, unfolding(base::specs::Pick::pick, crate::specs::Reply::reply_told))]
pub fn parse_reply(buf: &[u8]) -> Option<DiscoveryReply>
    ensures { told_of result ≡ reply_told buf.now }
{
    if is_p1(buf) {
        return reply_p1(buf);
    }
    if is_p2(buf) {
        return reply_p2(buf);
    }
    None
}
