// The keys of options by name, and the places of the words after a call's name.

// A key is its place here, as `place_of` finds it, and the values of a line are indexed by it: so it is a number. The options of the
// calls come first, then the settings of `open`. A further setting is appended, and shifts nothing.
pub const KEYS: [u8; 123] = *b"buffer waiting length bits samples \
    at receivers centres rate centre port radio board attenuation soft hard window malformed";

pub const BUFFER: usize = 0;

pub const WAITING: usize = 1;

pub const LENGTH: usize = 2;

pub const BITS: usize = 3;

pub const SAMPLES: usize = 4;

// The settings start here.
pub const SETTINGS: usize = AT;

pub const AT: usize = 5;

pub const RECEIVERS: usize = 6;

pub const CENTRES: usize = 7;

pub const RATE: usize = 8;

pub const CENTRE: usize = 9;

pub const PORT: usize = 10;

pub const RADIO: usize = 11;

pub const BOARD: usize = 12;

pub const ATTENUATION: usize = 13;

pub const SOFT: usize = 14;

pub const HARD: usize = 15;

pub const WINDOW: usize = 16;

pub const MALFORMED: usize = 17;

pub const KEY_COUNT: usize = 18;

// The words after a call's name.
pub(crate) const FIRST_WORD: usize = 0;

pub(crate) const SECOND_WORD: usize = 1;

pub(crate) const THIRD_WORD: usize = 2;

pub(crate) const FOURTH_WORD: usize = 3;

pub(crate) const WORD_COUNT: usize = 4;
