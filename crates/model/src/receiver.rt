// What belongs to a receiver. Its waiting samples are lent beside it: the places of an array of 476 f32 from `queue_pos` pairs on.
use sequence::SeqTracker;
use stall::StallEpisode;

// The read and the wait that it belongs to.
#[derive(Clone, Copy)]
pub struct Reading {
    // the wait anchor: set by the first Begin of a wait, emptied by the next valid I/Q
    pub wait_entered: Option<u64>,
    // this read's own copy of it; none where no read is open
    pub entered: Option<u64>,
}

// An open park window.
#[derive(Clone, Copy)]
pub struct Parked {
    // the Take after which the caller paused
    pub from: u64,
    // samples accepted and told missing since
    pub accounted: u64,
    // accepted arrivals until it closes
    pub left: u64,
}

// What is missing and not drained yet. Nothing, and 0 samples, differ.
#[derive(Clone, Copy)]
pub struct Pending {
    pub missing: Option<u64>,
    pub discontinuity: Option<u64>,
}

#[derive(Clone, Copy)]
pub struct Receiver {
    pub tracker: SeqTracker,
    // pairs of the lent samples that were handed out; at 238 none wait
    pub queue_pos: usize,
    pub reading: Reading,
    // the park window, where one is open
    pub parked: Option<Parked>,
    pub pending: Pending,
    // the reading of the last valid I/Q, Stale too
    pub last_valid_iq: u64,
    // the arrival's reading of the last accepted one
    pub last_accepted_iq: u64,
    // the reading of the last Take
    pub read_returned: u64,
    pub stall: StallEpisode,
}
