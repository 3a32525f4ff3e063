// What a writer answers whose values may be refused. The number of each case: specs/Answer.

#[derive(Clone, Copy)]
pub enum WriteError {
    // the values are none that such a packet can carry
    Value,
    // the buffer is shorter than the packet
    NoRoom,
}
