// The I/Q datagram of a count and 238 pairs of signed 24-bit numbers.
ghost use Rattle.std.specs.Prelude.{◌≡◌, true, not, ◌≤◌, ◌+◌, length};
ghost use Rattle.octets.specs.Written.{written};
ghost use Rattle.octets.specs.Packet.{packet};
ghost use Rattle.radio_packets.specs.Answer.{Wrote};
ghost use Rattle.radio_packets.specs.Iq.{is24, bits_of, all24, is_pairs, octets_of, iq_fields, iq_datagram};

use super::answer::WriteError;
use iq::{IQ_BITS, IQ_DATAGRAM_LEN, IQ_PAYLOAD, IQ_SAMPLES, SAMPLES_PER_FRAME, SEQ_OFFSET};
use stream::{BITS_PER_SAMPLE, F32_PER_DATAGRAM};

// The range of a signed 24-bit number.
const LEAST: i32 = -8388608;

const MOST: i32 = 8388607;

fn is_24(x: i32) -> bool
    ensures { result ≡ is24 x }
{
    if x < LEAST {
        return false;
    }
    x <= MOST
}

// Its 24 bits, in two's complement.
fn bits_of(x: i32) -> u32
    requires { is24 x ≡ true }
    ensures { result ≡ bits_of x }
{
    if x < 0 {
        return (x + 16777216) as u32;
    }
    x as u32
}

fn all_24(samples: &[i32]) -> bool
    ensures { result ≡ all24 samples.now }
{
    for x in samples {
        if !is_24(*x) {
            return false;
        }
    }
    true
}

#[tactic(auto, unfolding(crate::specs::Iq::is_pairs))]
fn is_pairs(samples: &[i32]) -> bool
    ensures { result ≡ is_pairs samples.now }
{
    if samples.len() != F32_PER_DATAGRAM {
        return false;
    }
    all_24(samples)
}

#[tactic(auto, unfolding(octets::specs::Packet::packet, octets::specs::Packet::zeros, octets::specs::Written::written))]
fn put_header(out: &mut [u8], seq: u32)
    requires { 16 ≤ length out.old }
    ensures { out.new ≡ written out.old 0 (packet 16 (iq_fields seq)) }
{
    octets::clear(out, IQ_PAYLOAD);
    octets::put_u32(out, SEQ_OFFSET, seq);
    octets::put_u16(out, IQ_BITS, BITS_PER_SAMPLE);
    octets::put_u16(out, IQ_SAMPLES, SAMPLES_PER_FRAME);
}

fn put_samples(out: &mut [u8], samples: &[i32])
    requires { (1444 ≤ length out.old) × (length samples.now ≡ 476) × (all24 samples.now ≡ true) }
    ensures { out.new ≡ written out.old 16 (octets_of samples.now) }
{
    for i in 0..F32_PER_DATAGRAM {
        octets::put_u24(out, IQ_PAYLOAD + 3 * i, bits_of(samples[i]));
    }
}

// Writes the datagram to the front of out. The samples are I, then Q of each pair: 476 numbers from -2^23 to 2^23 - 1.
pub fn iq_datagram(seq: u32, samples: &[i32], out: &mut [u8]) -> Result<(), WriteError>
    ensures { Wrote (not (is_pairs samples.now)) 1444 (iq_datagram seq samples.now) out.old result out.new }
{
    if !is_pairs(samples) {
        return Err(WriteError::Value);
    }
    if out.len() < IQ_DATAGRAM_LEN {
        return Err(WriteError::NoRoom);
    }
    put_header(out, seq);
    put_samples(out, samples);
    Ok(())
}
