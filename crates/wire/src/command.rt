// The four command streams: what each is named, the port that it goes to, and how long its packets are.
ghost use Rattle.std.specs.Prelude.{◌≡◌};
ghost use Rattle.wire.specs.Command.{offset_of, size_of};

use super::packet::{GENERAL_LEN, HIGH_PRIORITY_LEN, RX_SPECIFIC_LEN, TX_SPECIFIC_LEN};

#[derive(Clone, Copy)]
pub enum Stream {
    General,
    RxSpecific,
    TxSpecific,
    HighPriority,
}

impl Stream {
    // From the settings' port.
    pub fn offset(self) -> u8
        ensures { result ≡ offset_of self }
    {
        match self {
            Stream::General => 0,
            Stream::RxSpecific => 1,
            Stream::TxSpecific => 2,
            Stream::HighPriority => 3,
        }
    }

    // The octets of its packet.
    pub fn packet_len(self) -> usize
        ensures { result ≡ size_of self }
    {
        match self {
            Stream::General => GENERAL_LEN,
            Stream::RxSpecific => RX_SPECIFIC_LEN,
            Stream::TxSpecific => TX_SPECIFIC_LEN,
            Stream::HighPriority => HIGH_PRIORITY_LEN,
        }
    }
}
