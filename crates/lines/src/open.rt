// `open` and its settings.
ghost use Rattle.std.specs.Prelude.{◌≡◌, ◌<◌};
ghost use Rattle.std.specs.Float.{binary64};
ghost use Rattle.std.specs.Float.Ieee.{of_bits};
ghost use Rattle.text.specs.Split.{words};
ghost use Rattle.tuning.specs.Board.{board_info};
ghost use Rattle.lines.specs.Key.{key_count};
ghost use Rattle.lines.specs.Open as Open;

use super::call::or_else;
use super::key::{KEY_COUNT, SETTINGS};
use super::name::{Name, begins};
use super::option::options;
use super::{Expected, LONGEST, Opening, key};
use model::settings::{AttenuationChoice, Settings};
use stream::MOST_NUMBERS;
use tuning::board::{BoardInfo, board_info};

// Where they are left out: 48000 and 7000000 as doubles, and 10.0.0.2.
const RATE: u64 = 4676829883349860352;

const CENTRE: u64 = 4709274203742797824;

const RADIO: u64 = 167772162;

// The double of a pattern. Every NaN's pattern gives the one NaN that the language has.
fn double_of(bits: u64) -> f64
    ensures { result ≡ of_bits binary64 bits }
{
    if bits % 9223372036854775808 > 9218868437227405312 {
        return 0.0 / 0.0;
    }
    f64::from_bits(bits)
}

// What is above a board's number stands for a discovery that was skipped.
fn board_of(n: u64) -> BoardInfo
    ensures { result ≡ board_info (Open.board_id n) }
{
    board_info(u8::try_from(n).ok())
}

// By its place among the words that spell it, where the key is said.
fn choice_of(place: Option<u64>) -> AttenuationChoice
    ensures { result ≡ Open.choice place }
{
    match place {
        Some(0) => AttenuationChoice::Off,
        Some(1) => AttenuationChoice::On,
        _ => AttenuationChoice::Unsaid,
    }
}

fn double_or(keys: &[Option<u64>; KEY_COUNT], key: usize, other: u64) -> f64
    requires { key < key_count }
    ensures { result ≡ Open.double_or keys.now key other }
{
    double_of(or_else(keys, key, other))
}

fn settings_of(keys: &[Option<u64>; KEY_COUNT]) -> Settings
    requires { Open.Within keys.now }
    ensures { result ≡ Open.settings_of keys.now }
{
    let ddc_count = or_else(keys, key::RECEIVERS, 1) as usize;
    let center_count = or_else(keys, key::CENTRES, 1) as usize;
    let sample_rate_hz = double_or(keys, key::RATE, RATE);
    let center_freq_hz = double_or(keys, key::CENTRE, CENTRE);
    let port = or_else(keys, key::PORT, 1024) as u16;
    let radio_ip = or_else(keys, key::RADIO, RADIO) as u32;
    let board = board_of(or_else(keys, key::BOARD, 1));
    let attenuation = choice_of(keys[key::ATTENUATION]);
    let soft_after = or_else(keys, key::SOFT, 4500000000);
    let stall_after = or_else(keys, key::HARD, 10000000000);
    let park_window = or_else(keys, key::WINDOW, 8192);
    let max_consecutive_malformed = or_else(keys, key::MALFORMED, 10000) as u32;
    Settings {
        ddc_count,
        center_count,
        sample_rate_hz,
        center_freq_hz,
        port,
        radio_ip,
        board,
        attenuation,
        soft_after,
        stall_after,
        park_window,
        max_consecutive_malformed,
    }
}

fn unread(expected: Expected) -> Opening
    ensures { result ≡ Open.unread_opening expected }
{
    let none: [Option<u64>; KEY_COUNT] = [None; KEY_COUNT];
    Opening {
        read: Err(expected),
        at: 0,
        settings: settings_of(&none),
    }
}

// The words after `open`.
fn opened(s: &[u8]) -> Opening
    ensures { result ≡ Open.opened_by (words s.now) }
{
    let mut keys: [Option<u64>; KEY_COUNT] = [None; KEY_COUNT];
    let mut numbers = [0u32; MOST_NUMBERS];
    let run = options(s, SETTINGS, KEY_COUNT, &mut keys, &mut numbers);
    if let Err(untaken) = run.took {
        return unread(untaken.expected(Expected::Setting));
    }
    Opening {
        read: Ok(()),
        at: or_else(&keys, key::AT, 0),
        settings: settings_of(&keys),
    }
}

pub(crate) fn read_settings(line: &[u8]) -> Opening
    ensures { result ≡ Open.opening_of line.now }
{
    if line.len() > LONGEST {
        return unread(Expected::ShorterLine);
    }
    let Some(first) = begins(line) else {
        return unread(Expected::Open);
    };
    let Some(name) = first.name else {
        return unread(Expected::Open);
    };
    if name == Name::Open {
        return opened(first.rest);
    }
    unread(Expected::Open)
}
