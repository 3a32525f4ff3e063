// What an arrival brings.
use super::sender::Sender;

// A datagram that has come, and what is known when it is looked at.
#[derive(Clone, Copy)]
pub struct Incoming<'a> {
    // when it came
    pub reading: u64,
    // when it is looked at
    pub later: u64,
    pub from: Sender,
    pub datagram: &'a [u8],
    // the numbers of the datagrams that wait behind it
    pub waiting: &'a [u32],
}
