// The I/Q datagram: its header, and its 238 pairs as f32, which come as 24-bit signed numbers.
#![tactic(auto)]

ghost use Rattle.std.specs.Prelude.{◌≡◌, ◌+◌, ◌≤◌, ◌<◌, length};
ghost use Rattle.octets.specs.Number.{be_at};
ghost use Rattle.octets.specs.Written.{written};
ghost use Rattle.iq.specs.Iq.{sample_of, samples_of, iq_answer, header_told, Parsed};
ghost use Rattle.iq.specs.Turn.{le_at, turned_of};

use stream::{BITS_PER_SAMPLE, F32_PER_DATAGRAM, SAMPLES_PER_DATAGRAM};

pub const IQ_DATAGRAM_LEN: usize = 1444;

// What a header says of them: I/Q pairs in a datagram.
pub const SAMPLES_PER_FRAME: u16 = SAMPLES_PER_DATAGRAM as u16;

// 2^23
pub const P2_IQ_FULL_SCALE: f32 = 8_388_608.0;

pub const SEQ_OFFSET: usize = 0;

pub const IQ_BITS: usize = 12;

pub const IQ_SAMPLES: usize = 14;

pub const IQ_PAYLOAD: usize = 16;

// Why a datagram is no I/Q datagram, with what it says instead; or that its samples have no room.
#[derive(Clone, Copy)]
pub enum IqError {
    Length(usize),
    BitsPerSample(u16),
    SamplesPerFrame(u16),
    NoRoom,
}

// The signed 24-bit number with the bits v, over 2^23. Offset by 2^23 it is a whole number below 2^24, so that the cast, the
// difference and the quotient are all exact.
fn sample(v: u32) -> f32
    requires { v < 16777216 }
    ensures { result ≡ sample_of v }
{
    ((((v + 8388608) % 16777216) as f32) - P2_IQ_FULL_SCALE) / P2_IQ_FULL_SCALE
}

// The least significant octet first: a machine's own order, so that it is compiled to one load.
fn get_u32_le(p: &[u8], at: usize) -> u32
    requires { at + 4 ≤ length p.now }
    ensures { result ≡ le_at 4 p.now at }
{
    u32::from_le_bytes([p[at], p[at + 1], p[at + 2], p[at + 3]])
}

// The upper three octets of w in the other order.
#[tactic(auto, unfolding(crate::specs::Turn::turned_of))]
fn turned(w: u32) -> u32
    ensures { result ≡ turned_of w }
{
    let t = (w / 256 % 256) * 16777216 + (w / 65536 % 256) * 65536 + (w / 16777216) * 256;
    t / 256
}

// The sample in the three octets after b[at]: one read of four octets that never passes the datagram's end.
fn s24_after(b: &[u8], at: usize) -> f32
    requires { at + 4 ≤ length b.now }
    ensures { result ≡ sample_of (be_at 3 b.now (at + 1)) }
{
    sample(turned(get_u32_le(b, at)))
}

fn read_samples(buf: &[u8], out: &mut [f32])
    requires { (1444 ≤ length buf.now) × (476 ≤ length out.old) }
    ensures { out.new ≡ written out.old 0 (samples_of buf.now) }
{
    for i in 0..F32_PER_DATAGRAM {
        out[i] = s24_after(buf, IQ_PAYLOAD - 1 + 3 * i);
    }
}

// The count of a datagram whose header is right; 7, 8 and 9 are tested here.
pub fn iq_header(buf: &[u8]) -> Result<u32, IqError>
    ensures { iq_answer result ≡ header_told buf.now }
{
    let n = buf.len();
    if n != IQ_DATAGRAM_LEN {
        return Err(IqError::Length(n));
    }
    let bits = octets::get_u16(buf, IQ_BITS);
    if bits != BITS_PER_SAMPLE {
        return Err(IqError::BitsPerSample(bits));
    }
    let samples = octets::get_u16(buf, IQ_SAMPLES);
    if samples != SAMPLES_PER_FRAME {
        return Err(IqError::SamplesPerFrame(samples));
    }
    Ok(octets::get_u32(buf, SEQ_OFFSET))
}

// The count and the 476 f32 of a datagram, I then Q of each pair.
pub fn parse_iq_datagram(buf: &[u8], out: &mut [f32]) -> Result<u32, IqError>
    ensures { Parsed buf.now out.old result out.new }
{
    let seq = iq_header(buf)?;
    if out.len() < F32_PER_DATAGRAM {
        return Err(IqError::NoRoom);
    }
    read_samples(buf, out);
    Ok(seq)
}
