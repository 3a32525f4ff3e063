// The status datagram, of which only the ADC overload bits are read.
ghost use Rattle.std.specs.Prelude.{◌≡◌};
ghost use Rattle.wire.specs.Status.{overload_answer, overload_told, overloaded};

pub const STATUS_LEN: usize = 60;

// ADC0's overload bit.
pub const ADC0_OVERLOAD: u8 = 0x01;

pub const STATUS_ADC_OVERLOAD: usize = 5;

// Bit i is ADC i's.
#[tactic(auto, unfolding(base::specs::Pick::pick, crate::specs::Status::overload_told))]
pub fn adc_overload_bits(buf: &[u8]) -> Option<u8>
    ensures { overload_answer result ≡ overload_told buf.now }
{
    if buf.len() != STATUS_LEN {
        return None;
    }
    Some(buf[STATUS_ADC_OVERLOAD])
}

#[tactic(auto, unfolding(crate::specs::Status::overloaded))]
pub fn adc0_overload(bits: u8) -> bool
    ensures { result ≡ overloaded bits }
{
    bits & ADC0_OVERLOAD != 0
}
