// What the radio keeps: of each command stream the count and the fields of the last packet that it accepted. What Protocol 2's host
// always sends alike is not kept.
ghost use Rattle.std.specs.Prelude.{◌≡◌};
ghost use Rattle.radio.specs.State.{at_first};

#[derive(Clone, Copy)]
pub struct General {
    pub seq: u32,
    pub filter_enable: u8,
}

#[derive(Clone, Copy)]
pub struct RxSpecific {
    pub seq: u32,
    pub adc_count: u8,
    pub rate_khz: u16,
}

#[derive(Clone, Copy)]
pub struct TxSpecific {
    pub seq: u32,
}

#[derive(Clone, Copy)]
pub struct HighPriority {
    pub seq: u32,
    pub run: bool,
    // the receiver's phase word, and the transmitter's, which the host sets alike
    pub ddc_phase: u32,
    pub duc_phase: u32,
    pub alex1: u32,
    pub alex0: u32,
    pub attenuation: u8,
}

#[derive(Clone, Copy)]
pub struct Radio {
    pub general: General,
    pub rx_specific: RxSpecific,
    pub tx_specific: TxSpecific,
    pub high_priority: HighPriority,
}

impl Radio {
    // Before any packet: all is 0.
    pub fn new() -> Self
        ensures { result ≡ at_first }
    {
        Radio {
            general: General {
                seq: 0,
                filter_enable: 0,
            },
            rx_specific: RxSpecific {
                seq: 0,
                adc_count: 0,
                rate_khz: 0,
            },
            tx_specific: TxSpecific { seq: 0 },
            high_priority: HighPriority {
                seq: 0,
                run: false,
                ddc_phase: 0,
                duc_phase: 0,
                alex1: 0,
                alex0: 0,
                attenuation: 0,
            },
        }
    }
}
