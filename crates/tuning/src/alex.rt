// The Alex filter words of a board at a frequency: three ladders, each of six rungs.
ghost use Rattle.std.specs.Prelude.{◌≡◌};
ghost use Rattle.base.specs.Search.{first};
ghost use Rattle.tuning.specs.Alex.{on_rung, ladder_of, alex_words};

use super::board::FilterScheme;

// The bit that bypasses the high-pass bank of a Classic board, and the band-pass bank of a band-pass board.
const ALEX_BYPASS: u32 = 0x1000;

const HPF_1_5_MHZ: u32 = 0x40;

const HPF_6_5_MHZ: u32 = 0x20;

const HPF_9_5_MHZ: u32 = 0x10;

const HPF_13_MHZ: u32 = 0x02;

const HPF_20_MHZ: u32 = 0x04;

const HPF_6M_PREAMP: u32 = 0x08;

const LPF_160M: u32 = 0x0080_0000;

const LPF_80M: u32 = 0x0040_0000;

const LPF_60_40M: u32 = 0x0020_0000;

const LPF_30_20M: u32 = 0x0010_0000;

const LPF_17_15M: u32 = 0x8000_0000;

const LPF_12_10M: u32 = 0x4000_0000;

const LPF_6M_BYPASS: u32 = 0x2000_0000;

const BPF_160M: u32 = 0x40;

const BPF_80_60M: u32 = 0x20;

const BPF_40_30M: u32 = 0x10;

const BPF_20_15M: u32 = 0x02;

const BPF_12_10M: u32 = 0x04;

const BPF_6M: u32 = 0x08;

// The words of a board that is not known.
const BYPASS_ALEX0: u32 = LPF_6M_BYPASS | ALEX_BYPASS;

const BYPASS_ALEX1: u32 = LPF_6M_BYPASS;

// Six rungs, each up to its limit.
#[derive(Clone, Copy)]
struct Ladder {
    // whether its limits fall
    falling: bool,
    limits: [f64; 6],
    // of each rung, and those past the last
    bits: [u32; 7],
}

const HPF: Ladder = Ladder {
    falling: false,
    limits: [
        1_800_000.0,
        6_500_000.0,
        9_500_000.0,
        13_000_000.0,
        20_000_000.0,
        50_000_000.0,
    ],
    bits: [
        ALEX_BYPASS,
        HPF_1_5_MHZ,
        HPF_6_5_MHZ,
        HPF_9_5_MHZ,
        HPF_13_MHZ,
        HPF_20_MHZ,
        HPF_6M_PREAMP,
    ],
};

const LPF: Ladder = Ladder {
    falling: true,
    limits: [
        35_600_000.0,
        24_000_000.0,
        16_500_000.0,
        8_000_000.0,
        5_000_000.0,
        2_500_000.0,
    ],
    bits: [
        LPF_6M_BYPASS,
        LPF_12_10M,
        LPF_17_15M,
        LPF_30_20M,
        LPF_60_40M,
        LPF_80M,
        LPF_160M,
    ],
};

const BPF: Ladder = Ladder {
    falling: false,
    limits: [
        1_500_000.0,
        2_100_000.0,
        5_500_000.0,
        11_000_000.0,
        22_000_000.0,
        35_000_000.0,
    ],
    bits: [
        ALEX_BYPASS,
        BPF_160M,
        BPF_80_60M,
        BPF_40_30M,
        BPF_20_15M,
        BPF_12_10M,
        BPF_6M,
    ],
};

#[derive(Clone, Copy)]
pub struct AlexWords {
    pub alex0: u32,
    pub alex1: u32,
}

// Whether f stands on the rung of this limit. A NaN stands on none.
#[tactic(auto, unfolding(crate::specs::Alex::on_rung))]
fn on_rung(falling: bool, f: f64, limit: f64) -> bool
    ensures { result ≡ on_rung falling f limit }
{
    if falling {
        return f > limit;
    }
    f < limit
}

impl Ladder {
    // The place of the first rung that f stands on, 6 where there is none.
    #[tactic(auto, unfolding(base::specs::Pick::pick, base::specs::Search::first))]
    fn rung(self, f: f64) -> usize
        ensures { result ≡ first (on_rung self.falling f) self.limits }
    {
        for i in 0..6 {
            if on_rung(self.falling, f, self.limits[i]) {
                return i;
            }
        }
        6
    }

    // The bits of that rung.
    fn bits_at(self, f: f64) -> u32
        ensures { result ≡ ladder_of self.falling self.limits self.bits f }
    {
        self.bits[self.rung(f)]
    }
}

// The words of a scheme at f.
pub fn alex_words(scheme: FilterScheme, f: f64) -> AlexWords
    ensures { result ≡ alex_words scheme f }
{
    match scheme {
        FilterScheme::None => AlexWords { alex0: 0, alex1: 0 },
        FilterScheme::Classic => AlexWords {
            alex0: HPF.bits_at(f) | LPF.bits_at(f),
            alex1: LPF.bits_at(f),
        },
        FilterScheme::BandPassDual => AlexWords {
            alex0: BPF.bits_at(f) | LPF.bits_at(f),
            alex1: ALEX_BYPASS | LPF.bits_at(f),
        },
        FilterScheme::BandPass => AlexWords {
            alex0: BPF.bits_at(f) | LPF.bits_at(f),
            alex1: LPF.bits_at(f),
        },
        FilterScheme::Bypass => AlexWords {
            alex0: BYPASS_ALEX0,
            alex1: BYPASS_ALEX1,
        },
    }
}
