// The session's counts. The two that a call leaves alone hold numbers of their own, and no answer is given where one changed.
use casebook::answer::Answer;
use health::InputHealthCounters;

const OTHER_DROPPED: u64 = 1001;

const OTHER_GAPS: u64 = 2002;

const OTHER_MALFORMED: u64 = 3003;

fn counts(dropped_packets: u64, gaps_detected: u64, malformed_packets: u64) -> InputHealthCounters {
    InputHealthCounters {
        dropped_packets,
        gaps_detected,
        malformed_packets,
    }
}

fn told(count: u64, others_stayed: bool) -> Answer {
    if others_stayed {
        return Answer::Number(count);
    }
    Answer::Nothing
}

pub fn dropped(count: u64, n: u64) -> Answer {
    let mut c = counts(count, OTHER_GAPS, OTHER_MALFORMED);
    c.record_dropped(n);
    told(
        c.dropped_packets,
        c.gaps_detected == OTHER_GAPS && c.malformed_packets == OTHER_MALFORMED,
    )
}

pub fn gap(count: u64) -> Answer {
    let mut c = counts(OTHER_DROPPED, count, OTHER_MALFORMED);
    c.record_gap();
    told(
        c.gaps_detected,
        c.dropped_packets == OTHER_DROPPED && c.malformed_packets == OTHER_MALFORMED,
    )
}

pub fn malformed(count: u64) -> Answer {
    let mut c = counts(OTHER_DROPPED, OTHER_GAPS, count);
    c.record_malformed();
    told(
        c.malformed_packets,
        c.dropped_packets == OTHER_DROPPED && c.gaps_detected == OTHER_GAPS,
    )
}

pub fn loss_total(count: u64) -> Answer {
    Answer::Number(counts(count, OTHER_GAPS, OTHER_MALFORMED).loss_total())
}
