// What is kept of an arrival of valid I/Q, as its answer told it. `Event` is not sequence's own, which has a gap's datagrams too: they
// are not kept.

#[derive(Clone, Copy)]
pub enum Event {
    InOrder,
    Gap,
    Stale,
    Restart,
}

#[derive(Clone, Copy)]
pub struct Record {
    // the arrival's reading, and the number of its datagram
    pub reading: u64,
    pub number: u32,
    pub event: Event,
    pub missing: u64,
}
