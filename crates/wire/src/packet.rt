// The four command packets, each written to the front of a lent part of a buffer. Nobody transmits: drive, dither and the
// other fields that stay 0 are among the octets that are cleared.
ghost use Rattle.std.specs.Prelude.{◌≡◌, [], ◌∷◌, ◌≤◌, length};
ghost use Rattle.octets.specs.Written.{written};
ghost use Rattle.octets.specs.Packet.{packet, field};
ghost use Rattle.wire.specs.Packet.{Sent, general_packet, rx_packet, tx_packet, high_packet};

use stream::BITS_PER_SAMPLE;
use tuning::board::BoardInfo;

pub const GENERAL_LEN: usize = 60;

pub const RX_SPECIFIC_LEN: usize = 1444;

pub const TX_SPECIFIC_LEN: usize = 60;

pub const HIGH_PRIORITY_LEN: usize = 1444;

// The step attenuator's range.
pub const MAX_STEP_ATTENUATION_DB: u8 = 31;

pub const SEQ_OFFSET: usize = 0;

pub const GENERAL_FREQ_MODE: usize = 37;

pub const GENERAL_FREQ_MODE_PHASE_WORDS: u8 = 0x08;

pub const GENERAL_WATCHDOG: usize = 38;

pub const GENERAL_WATCHDOG_ON: u8 = 0x01;

pub const GENERAL_FILTER_ENABLE: usize = 59;

pub const RX_ADC_COUNT: usize = 4;

pub const RX_DDC_ENABLE: usize = 7;

pub const RX_DDC_ENABLE_DDC0: u8 = 0x01;

pub const RX_DDC0_RATE: usize = 18;

pub const RX_DDC0_BITS: usize = 22;

pub const TX_DAC_COUNT: usize = 4;

pub const TX_ONE_DAC: u8 = 1;

pub const HP_RUN: usize = 4;

pub const HP_RUN_BIT: u8 = 0x01;

pub const HP_DDC0_PHASE: usize = 9;

pub const HP_DUC_PHASE: usize = 329;

pub const HP_ALEX1: usize = 1428;

pub const HP_ALEX0: usize = 1432;

pub const HP_STEP_ATTENUATOR_ADC0: usize = 1443;

// Why a packet is not written: the buffer is shorter than it.
#[derive(Clone, Copy)]
pub enum PacketError {
    NoRoom,
}

// Every command starts with its count; the octets that it does not name are 0.
#[tactic(auto, unfolding(octets::specs::Packet::packet, octets::specs::Written::written))]
fn start(p: &mut [u8], n: usize, seq: u32)
    requires { (n ≤ length p.old) × (4 ≤ n) }
    ensures { p.new ≡ written p.old 0 (packet n (field 0 4 seq ∷ [])) }
{
    octets::clear(p, n);
    octets::put_u32(p, SEQ_OFFSET, seq);
}

pub fn general_packet(seq: u32, board: BoardInfo, out: &mut [u8]) -> Result<(), PacketError>
    ensures { Sent 60 (general_packet seq board) out.old result out.new }
{
    if out.len() < GENERAL_LEN {
        return Err(PacketError::NoRoom);
    }
    start(out, GENERAL_LEN, seq);
    out[GENERAL_FREQ_MODE] = GENERAL_FREQ_MODE_PHASE_WORDS;
    out[GENERAL_WATCHDOG] = GENERAL_WATCHDOG_ON;
    out[GENERAL_FILTER_ENABLE] = board.filter_enable;
    Ok(())
}

pub fn rx_specific_packet(
    seq: u32,
    board: BoardInfo,
    khz: u16,
    out: &mut [u8],
) -> Result<(), PacketError>
    ensures { Sent 1444 (rx_packet seq board khz) out.old result out.new }
{
    if out.len() < RX_SPECIFIC_LEN {
        return Err(PacketError::NoRoom);
    }
    start(out, RX_SPECIFIC_LEN, seq);
    out[RX_ADC_COUNT] = board.adc_count;
    out[RX_DDC_ENABLE] = RX_DDC_ENABLE_DDC0;
    octets::put_u16(out, RX_DDC0_RATE, khz);
    out[RX_DDC0_BITS] = BITS_PER_SAMPLE as u8;
    Ok(())
}

pub fn tx_specific_packet(seq: u32, out: &mut [u8]) -> Result<(), PacketError>
    ensures { Sent 60 (tx_packet seq) out.old result out.new }
{
    if out.len() < TX_SPECIFIC_LEN {
        return Err(PacketError::NoRoom);
    }
    start(out, TX_SPECIFIC_LEN, seq);
    out[TX_DAC_COUNT] = TX_ONE_DAC;
    Ok(())
}

pub fn high_priority_packet(
    seq: u32,
    run: bool,
    phase: u32,
    alex0: u32,
    alex1: u32,
    db: u8,
    out: &mut [u8],
) -> Result<(), PacketError>
    ensures { Sent 1444 (high_packet seq run phase alex0 alex1 db) out.old result out.new }
{
    if out.len() < HIGH_PRIORITY_LEN {
        return Err(PacketError::NoRoom);
    }
    start(out, HIGH_PRIORITY_LEN, seq);
    out[HP_RUN] = if run { HP_RUN_BIT } else { 0 };
    octets::put_u32(out, HP_DDC0_PHASE, phase);
    octets::put_u32(out, HP_DUC_PHASE, phase);
    octets::put_u32(out, HP_ALEX1, alex1);
    octets::put_u32(out, HP_ALEX0, alex0);
    out[HP_STEP_ATTENUATOR_ADC0] = if db < MAX_STEP_ATTENUATION_DB {
        db
    } else {
        MAX_STEP_ATTENUATION_DB
    };
    Ok(())
}
