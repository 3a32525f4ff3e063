// What Open and each call answer. 01's number or words of each case: specs/Answer and specs/Settings.
ghost use Rattle.std.specs.Prelude.{◌≡◌};
ghost use Rattle.model.specs.Answer.{refusal_number};

use super::command::Streams;
use super::session::Session;
use super::settings::SettingsError;
use sequence::SeqEvent;

// Why a call is refused: 01's rows from 10 to 17. A refused call changes nothing.
#[derive(Clone, Copy)]
pub enum Refusal {
    NotNow,
    ReadingFell,
    SamplesWait,
    LaterFell,
    TooManyWaiting,
    // the buffer lent for packets is too short
    NoPacketRoom,
    // the buffer lent for samples is too short
    NoSampleRoom,
    NothingWaits,
}

impl Refusal {
    // 01's number.
    pub fn number(self) -> u64
        ensures { result ≡ refusal_number self }
    {
        match self {
            Refusal::NotNow => 10,
            Refusal::ReadingFell => 11,
            Refusal::SamplesWait => 12,
            Refusal::LaterFell => 13,
            Refusal::TooManyWaiting => 14,
            Refusal::NoPacketRoom => 15,
            Refusal::NoSampleRoom => 16,
            Refusal::NothingWaits => 17,
        }
    }
}

#[derive(Clone, Copy)]
pub struct Opened {
    // the rate in kHz
    pub answer: Result<u16, SettingsError>,
    pub session: Session,
}

#[derive(Clone, Copy)]
pub enum PassAnswer {
    Ready,
    SoftStall,
    HardStall,
    // with the streams that it wrote
    Sent(Streams),
}

#[derive(Clone, Copy)]
pub enum ArrivalAnswer {
    // a port that is not read, or a status packet that is not
    Ignored,
    // with the streams that it wrote
    Status(Streams),
    Malformed,
    // and the read is closed
    MalformedLimit,
    // a valid I/Q datagram: the event, and this arrival's missing
    Iq { event: SeqEvent, missing: u64 },
}
