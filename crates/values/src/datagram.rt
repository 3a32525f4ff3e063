// The datagrams that a line stands for, into a lent buffer.
ghost use Rattle.std.specs.Prelude.{◌≡◌, ◌≤◌, length};
ghost use Rattle.octets.specs.Written.{written};
ghost use Rattle.values.specs.Datagram.{pairs, iq_octets, status_octets};

use stream::{MOST_OCTETS, SAMPLES_PER_DATAGRAM};

fn put_pairs(p: &mut [u8], number: u32)
    requires { 1444 ≤ length p.old }
    ensures { p.new ≡ written p.old 16 (pairs number 238) }
{
    let first = number as u64 * SAMPLES_PER_DATAGRAM;
    for j in 0..SAMPLES_PER_DATAGRAM {
        let i = ((first + j) % 16777216) as u32;
        let at = 16 + 6 * j as usize;
        octets::put_u24(p, at, i);
        octets::put_u24(p, at + 3, 16777215 - i);
    }
}

// An I/Q datagram made from its number, and 0 up to 2048 octets.
pub fn put_iq(p: &mut [u8], number: u32, bits: u16, samples: u16)
    requires { 2048 ≤ length p.old }
    ensures { p.new ≡ written p.old 0 (iq_octets number bits samples) }
{
    octets::clear(p, MOST_OCTETS);
    octets::put_u32(p, 0, number);
    octets::put_u16(p, 12, bits);
    octets::put_u16(p, 14, samples);
    put_pairs(p, number);
}

// A status packet, all 0 but octet 5.
pub fn put_status(p: &mut [u8], octet: u8)
    requires { 60 ≤ length p.old }
    ensures { p.new ≡ written p.old 0 (status_octets octet) }
{
    octets::clear(p, 60);
    p[5] = octet;
}
