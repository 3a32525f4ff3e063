// The functions of wire on octets that a case can name. A row is counted from 0, in the order of the table.
use casebook::answer::Answer;
use iq::{IqError, iq_header, parse_iq_datagram};
use tuning::board::{BoardInfo, FilterScheme};
use wire::packet::{
    PacketError, general_packet, high_priority_packet, rx_specific_packet, tx_specific_packet,
};
use wire::status::adc_overload_bits;

// A packet is given its arguments in the Rust's order, the board by its ADCs and its filter enable.
pub const TABLE: [u8; 182] = *b"general_packet 3o\n\
    rx_specific_packet 4o\n\
    tx_specific_packet 1o\n\
    high_priority_packet 6o\n\
    refused_left 1o\n\
    adc_overload_bits 0o\n\
    iq_header 0o\n\
    iq_value 0o\n\
    iq_sample 1o\n\
    iq_room 1o\n\
    iq_left 2o";

pub fn of_packet(a: Result<(), PacketError>) -> Answer {
    match a {
        Ok(()) => Answer::Octets,
        Err(PacketError::NoRoom) => Answer::Refused(15),
    }
}

fn board(adcs: u8, enable: u8) -> BoardInfo {
    BoardInfo {
        id: None,
        adc_count: adcs,
        filter_enable: enable,
        scheme: FilterScheme::Bypass,
    }
}

// None where a number is not of the type that the function takes.
fn general(n: [u64; 6], p: &mut [u8]) -> Option<Answer> {
    let seq = u32::try_from(n[0]).ok()?;
    let b = board(u8::try_from(n[1]).ok()?, u8::try_from(n[2]).ok()?);
    Some(of_packet(general_packet(seq, b, p)))
}

fn receive(n: [u64; 6], p: &mut [u8]) -> Option<Answer> {
    let seq = u32::try_from(n[0]).ok()?;
    let b = board(u8::try_from(n[1]).ok()?, u8::try_from(n[2]).ok()?);
    let khz = u16::try_from(n[3]).ok()?;
    Some(of_packet(rx_specific_packet(seq, b, khz, p)))
}

fn transmit(n: [u64; 6], p: &mut [u8]) -> Option<Answer> {
    let seq = u32::try_from(n[0]).ok()?;
    Some(of_packet(tx_specific_packet(seq, p)))
}

fn high_priority(n: [u64; 6], p: &mut [u8]) -> Option<Answer> {
    let seq = u32::try_from(n[0]).ok()?;
    let phase = u32::try_from(n[2]).ok()?;
    let alex0 = u32::try_from(n[3]).ok()?;
    let alex1 = u32::try_from(n[4]).ok()?;
    let db = u8::try_from(n[5]).ok()?;
    if n[1] > 1 {
        return None;
    }
    let run = n[1] == 1;
    Some(of_packet(high_priority_packet(seq, run, phase, alex0, alex1, db, p)))
}

// What the octets are after a packet was to be written, whether it was or not. The writers stand in the table's order.
fn left(which: u64, p: &mut [u8]) -> Answer {
    let b = board(1, 1);
    let _ = match which {
        0 => general_packet(0, b, p),
        1 => rx_specific_packet(0, b, 48, p),
        2 => tx_specific_packet(0, p),
        _ => high_priority_packet(0, false, 0, 0, 0, 0, p),
    };
    Answer::Octets
}

fn overload(p: &[u8]) -> Answer {
    match adc_overload_bits(p) {
        Some(b) => Answer::Number(b as u64),
        None => Answer::Absent,
    }
}

fn of_iq(a: Result<u32, IqError>) -> Answer {
    match a {
        Ok(seq) => Answer::Number(seq as u64),
        Err(IqError::Length(_)) => Answer::Refused(7),
        Err(IqError::BitsPerSample(_)) => Answer::Refused(8),
        Err(IqError::SamplesPerFrame(_)) => Answer::Refused(9),
        Err(IqError::NoRoom) => Answer::Refused(16),
    }
}

// What the answer gives: the count, or with a refusal the length or the field.
fn given(a: Result<u32, IqError>) -> Answer {
    match a {
        Ok(seq) => Answer::Number(seq as u64),
        Err(IqError::Length(n)) => Answer::Number(n as u64),
        Err(IqError::BitsPerSample(v)) => Answer::Number(v as u64),
        Err(IqError::SamplesPerFrame(v)) => Answer::Number(v as u64),
        Err(IqError::NoRoom) => Answer::Nothing,
    }
}

// A NaN, which no sample is, is told by one pattern.
fn bits_of(x: f32) -> u32 {
    if x.is_nan() {
        return 0x7fc0_0000;
    }
    f32::to_bits(x)
}

// Place i of an output that has four places more than a datagram fills, each of which holds 7.
fn sample(p: &[u8], i: u64) -> Answer {
    let mut out = [7.0f32; 480];
    let read = parse_iq_datagram(p, &mut out);
    match (read, out.get(i as usize)) {
        (_, None) => Answer::Nothing,
        (Ok(_), Some(x)) => Answer::Double(u64::from(bits_of(*x))),
        (refused, _) => of_iq(refused),
    }
}

// An output of n places.
fn room(p: &[u8], n: u64) -> Option<Answer> {
    let mut out = [7.0f32; 480];
    Some(of_iq(parse_iq_datagram(p, out.get_mut(..n as usize)?)))
}

// Place i of 480, of which n are the output, after a datagram was to be read, whether it was or not.
fn kept(p: &[u8], n: u64, i: u64) -> Option<Answer> {
    let mut out = [7.0f32; 480];
    let _ = parse_iq_datagram(p, out.get_mut(..n as usize)?);
    let x = out.get(i as usize)?;
    Some(Answer::Double(u64::from(bits_of(*x))))
}

fn or_nothing(a: Option<Answer>) -> Answer {
    a.unwrap_or(Answer::Nothing)
}

// p is what the case gives, and a packet is written to it in place.
pub fn answer(row: usize, n: [u64; 6], p: &mut [u8]) -> Answer {
    match row {
        0 => or_nothing(general(n, p)),
        1 => or_nothing(receive(n, p)),
        2 => or_nothing(transmit(n, p)),
        3 => or_nothing(high_priority(n, p)),
        4 => left(n[0], p),
        5 => overload(p),
        6 => of_iq(iq_header(p)),
        7 => given(iq_header(p)),
        8 => sample(p, n[0]),
        9 => or_nothing(room(p, n[0])),
        _ => or_nothing(kept(p, n[0], n[1])),
    }
}
