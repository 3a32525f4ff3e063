// A command packet, read: 20 where it is not as long as its stream's packets are, 21 where an octet that is fixed or a field's value is
// wrong. What is accepted sets the stream's part of what the radio keeps.
ghost use Rattle.std.specs.Prelude.{◌≡◌, ◌&&◌, length};
ghost use Rattle.wire.specs.Command.{size_of};
ghost use Rattle.radio.specs.Answer.{outcome_of};
ghost use Rattle.radio.specs.Command.{plain, valued, general_in, rx_specific_in, tx_specific_in, high_priority_in, kept, command_read};

use super::answer::{CommandError, Heard};
use super::state::{General, HighPriority, Radio, RxSpecific, TxSpecific};
use octets::{get_u16, get_u32, is_zero};
use stream::BITS_PER_SAMPLE;
use tuning::rate::is_rate_khz;
use wire::command::Stream;
use wire::packet::{
    GENERAL_FILTER_ENABLE, GENERAL_FREQ_MODE, GENERAL_FREQ_MODE_PHASE_WORDS, GENERAL_WATCHDOG,
    GENERAL_WATCHDOG_ON, HIGH_PRIORITY_LEN, HP_ALEX0, HP_ALEX1, HP_DDC0_PHASE, HP_DUC_PHASE,
    HP_RUN, HP_RUN_BIT, HP_STEP_ATTENUATOR_ADC0, MAX_STEP_ATTENUATION_DB, RX_ADC_COUNT,
    RX_DDC_ENABLE, RX_DDC_ENABLE_DDC0, RX_DDC0_BITS, RX_DDC0_RATE, RX_SPECIFIC_LEN, SEQ_OFFSET,
    TX_DAC_COUNT, TX_ONE_DAC, TX_SPECIFIC_LEN,
};

// Every command starts with its count, of four octets.
const SEQ_END: usize = SEQ_OFFSET + 4;

// ---- the octets that are fixed: named ones have their value, and between the named ones all is 0

fn general_is_plain(p: &[u8]) -> bool
    requires { length p.now ≡ 60 }
    ensures { result ≡ plain Stream.General p.now }
{
    let before = is_zero(p, SEQ_END, GENERAL_FREQ_MODE);
    let past = is_zero(p, GENERAL_WATCHDOG + 1, GENERAL_FILTER_ENABLE);
    let mode = p[GENERAL_FREQ_MODE] == GENERAL_FREQ_MODE_PHASE_WORDS;
    let watchdog = p[GENERAL_WATCHDOG] == GENERAL_WATCHDOG_ON;
    before & past & (mode & watchdog)
}

fn rx_specific_is_plain(p: &[u8]) -> bool
    requires { length p.now ≡ 1444 }
    ensures { result ≡ plain Stream.RxSpecific p.now }
{
    let before = is_zero(p, RX_ADC_COUNT + 1, RX_DDC_ENABLE);
    let between = is_zero(p, RX_DDC_ENABLE + 1, RX_DDC0_RATE);
    let behind = is_zero(p, RX_DDC0_RATE + 2, RX_DDC0_BITS);
    let past = is_zero(p, RX_DDC0_BITS + 1, RX_SPECIFIC_LEN);
    let set = p[RX_DDC_ENABLE] == RX_DDC_ENABLE_DDC0;
    let bits = p[RX_DDC0_BITS] == BITS_PER_SAMPLE as u8;
    before & between & (behind & past) & (set & bits)
}

fn tx_specific_is_plain(p: &[u8]) -> bool
    requires { length p.now ≡ 60 }
    ensures { result ≡ plain Stream.TxSpecific p.now }
{
    let past = is_zero(p, TX_DAC_COUNT + 1, TX_SPECIFIC_LEN);
    past & (p[TX_DAC_COUNT] == TX_ONE_DAC)
}

fn high_priority_is_plain(p: &[u8]) -> bool
    requires { length p.now ≡ 1444 }
    ensures { result ≡ plain Stream.HighPriority p.now }
{
    let before = is_zero(p, HP_RUN + 1, HP_DDC0_PHASE);
    let between = is_zero(p, HP_DDC0_PHASE + 4, HP_DUC_PHASE);
    let behind = is_zero(p, HP_DUC_PHASE + 4, HP_ALEX1);
    let past = is_zero(p, HP_ALEX0 + 4, HP_STEP_ATTENUATOR_ADC0);
    before & between & (behind & past)
}

// ---- what each packet sets

fn general_in(p: &[u8]) -> General
    requires { length p.now ≡ 60 }
    ensures { result ≡ general_in p.now }
{
    General {
        seq: get_u32(p, SEQ_OFFSET),
        filter_enable: p[GENERAL_FILTER_ENABLE],
    }
}

fn rx_specific_in(p: &[u8]) -> RxSpecific
    requires { length p.now ≡ 1444 }
    ensures { result ≡ rx_specific_in p.now }
{
    RxSpecific {
        seq: get_u32(p, SEQ_OFFSET),
        adc_count: p[RX_ADC_COUNT],
        rate_khz: get_u16(p, RX_DDC0_RATE),
    }
}

fn tx_specific_in(p: &[u8]) -> TxSpecific
    requires { length p.now ≡ 60 }
    ensures { result ≡ tx_specific_in p.now }
{
    TxSpecific {
        seq: get_u32(p, SEQ_OFFSET),
    }
}

fn high_priority_in(p: &[u8]) -> HighPriority
    requires { length p.now ≡ 1444 }
    ensures { result ≡ high_priority_in p.now }
{
    let seq = get_u32(p, SEQ_OFFSET);
    HighPriority {
        seq,
        run: p[HP_RUN] == HP_RUN_BIT,
        ddc_phase: get_u32(p, HP_DDC0_PHASE),
        duc_phase: get_u32(p, HP_DUC_PHASE),
        alex1: get_u32(p, HP_ALEX1),
        alex0: get_u32(p, HP_ALEX0),
        attenuation: p[HP_STEP_ATTENUATOR_ADC0],
    }
}

// ---- the packet of a stream, as long as it has to be

fn is_plain(stream: Stream, p: &[u8]) -> bool
    requires { length p.now ≡ size_of stream }
    ensures { result ≡ plain stream p.now }
{
    match stream {
        Stream::General => general_is_plain(p),
        Stream::RxSpecific => rx_specific_is_plain(p),
        Stream::TxSpecific => tx_specific_is_plain(p),
        Stream::HighPriority => high_priority_is_plain(p),
    }
}

// Run is off or on, the phase words are alike, and the attenuation is within its range.
fn high_priority_is_valued(p: &[u8]) -> bool
    requires { length p.now ≡ 1444 }
    ensures { result ≡ valued Stream.HighPriority p.now }
{
    let run = p[HP_RUN] <= HP_RUN_BIT;
    let alike = get_u32(p, HP_DDC0_PHASE) == get_u32(p, HP_DUC_PHASE);
    let within = p[HP_STEP_ATTENUATOR_ADC0] <= MAX_STEP_ATTENUATION_DB;
    run & (alike & within)
}

fn is_valued(stream: Stream, p: &[u8]) -> bool
    requires { length p.now ≡ size_of stream }
    ensures { result ≡ valued stream p.now }
{
    match stream {
        Stream::General => true,
        Stream::RxSpecific => is_rate_khz(get_u16(p, RX_DDC0_RATE)),
        Stream::TxSpecific => true,
        Stream::HighPriority => high_priority_is_valued(p),
    }
}

fn set_by(radio: Radio, stream: Stream, p: &[u8]) -> Radio
    requires { length p.now ≡ size_of stream }
    ensures { result ≡ kept stream p.now radio }
{
    let mut next = radio;
    match stream {
        Stream::General => next.general = general_in(p),
        Stream::RxSpecific => next.rx_specific = rx_specific_in(p),
        Stream::TxSpecific => next.tx_specific = tx_specific_in(p),
        Stream::HighPriority => next.high_priority = high_priority_in(p),
    }
    next
}

// The packet of a stream, of any length. Refused, the radio is as it was; accepted, it keeps the packet's count and fields.
#[tactic(auto, unfolding(base::specs::Pick::pick, crate::specs::Command::command_read))]
pub fn read_command(radio: Radio, stream: Stream, packet: &[u8]) -> Heard
    ensures { outcome_of result ≡ command_read radio stream packet.now }
{
    if packet.len() != stream.packet_len() {
        return Heard {
            answer: Err(CommandError::Length),
            radio,
        };
    }
    if !is_plain(stream, packet) {
        return Heard {
            answer: Err(CommandError::Value),
            radio,
        };
    }
    if !is_valued(stream, packet) {
        return Heard {
            answer: Err(CommandError::Value),
            radio,
        };
    }
    Heard {
        answer: Ok(()),
        radio: set_by(radio, stream, packet),
    }
}
