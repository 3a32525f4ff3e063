// What the radio keeps, as the front of a case's octets: stream after stream by their offsets, each number big-endian.
ghost use Rattle.std.specs.Prelude.{◌≤◌, ◌<◌, length};

use casebook::answer::Answer;
use octets::{get_u16, get_u32, put_u16, put_u32};
use radio::state::{General, HighPriority, Radio, RxSpecific, TxSpecific};

pub(crate) const RADIO: usize = 38;

const GENERAL_SEQ: usize = 0;

const GENERAL_FILTER_ENABLE: usize = 4;

const RX_SEQ: usize = 5;

const RX_ADC_COUNT: usize = 9;

const RX_RATE: usize = 10;

const TX_SEQ: usize = 12;

const HP_SEQ: usize = 16;

const HP_RUN: usize = 20;

const HP_DDC_PHASE: usize = 21;

const HP_DUC_PHASE: usize = 25;

const HP_ALEX1: usize = 29;

const HP_ALEX0: usize = 33;

const HP_ATTENUATION: usize = 37;

fn high_priority(p: &[u8]) -> HighPriority
    requires { 38 ≤ length p.now }
{
    HighPriority {
        seq: get_u32(p, HP_SEQ),
        run: p[HP_RUN] != 0,
        ddc_phase: get_u32(p, HP_DDC_PHASE),
        duc_phase: get_u32(p, HP_DUC_PHASE),
        alex1: get_u32(p, HP_ALEX1),
        alex0: get_u32(p, HP_ALEX0),
        attenuation: p[HP_ATTENUATION],
    }
}

pub(crate) fn radio(p: &[u8]) -> Radio
    requires { 38 ≤ length p.now }
{
    Radio {
        general: General {
            seq: get_u32(p, GENERAL_SEQ),
            filter_enable: p[GENERAL_FILTER_ENABLE],
        },
        rx_specific: RxSpecific {
            seq: get_u32(p, RX_SEQ),
            adc_count: p[RX_ADC_COUNT],
            rate_khz: get_u16(p, RX_RATE),
        },
        tx_specific: TxSpecific {
            seq: get_u32(p, TX_SEQ),
        },
        high_priority: high_priority(p),
    }
}

fn put_u8(p: &mut [u8], at: usize, v: u8)
    requires { at < length p.old }
{
    p[at] = v;
}

fn put_general(p: &mut [u8], g: General)
    requires { 38 ≤ length p.old }
{
    put_u32(p, GENERAL_SEQ, g.seq);
    put_u8(p, GENERAL_FILTER_ENABLE, g.filter_enable);
}

fn put_rx_specific(p: &mut [u8], r: RxSpecific)
    requires { 38 ≤ length p.old }
{
    put_u32(p, RX_SEQ, r.seq);
    put_u8(p, RX_ADC_COUNT, r.adc_count);
    put_u16(p, RX_RATE, r.rate_khz);
}

fn put_words(p: &mut [u8], h: HighPriority)
    requires { 38 ≤ length p.old }
{
    put_u32(p, HP_DDC_PHASE, h.ddc_phase);
    put_u32(p, HP_DUC_PHASE, h.duc_phase);
    put_u32(p, HP_ALEX1, h.alex1);
    put_u32(p, HP_ALEX0, h.alex0);
}

fn put_high_priority(p: &mut [u8], h: HighPriority)
    requires { 38 ≤ length p.old }
{
    put_u32(p, HP_SEQ, h.seq);
    put_u8(p, HP_RUN, if h.run { 1 } else { 0 });
    put_words(p, h);
    put_u8(p, HP_ATTENUATION, h.attenuation);
}

pub(crate) fn put_radio(p: &mut [u8], r: Radio)
    requires { 38 ≤ length p.old }
{
    put_general(p, r.general);
    put_rx_specific(p, r.rx_specific);
    put_u32(p, TX_SEQ, r.tx_specific.seq);
    put_high_priority(p, r.high_priority);
}

// A radio before any packet.
pub(crate) fn new(p: &mut [u8]) -> Answer {
    if p.len() < RADIO {
        return Answer::Nothing;
    }
    put_radio(p, Radio::new());
    Answer::Octets
}
