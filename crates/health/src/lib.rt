// The counts of a session: datagrams lost, gaps, and malformed datagrams, each modulo 2^64. 01, The session.
#![tactic(auto)]

ghost use Rattle.std.specs.Prelude.{◌≡◌};
ghost use Rattle.health.specs.Counters.{none_counted, count_dropped, count_gap, count_malformed, loss_total};

use stream::SAMPLES_PER_DATAGRAM;

#[derive(Clone, Copy)]
pub struct InputHealthCounters {
    pub dropped_packets: u64,
    pub gaps_detected: u64,
    pub malformed_packets: u64,
}

impl InputHealthCounters {
    pub fn new() -> Self
        ensures { result ≡ none_counted }
    {
        Self {
            dropped_packets: 0,
            gaps_detected: 0,
            malformed_packets: 0,
        }
    }

    // n datagrams were lost.
    pub fn record_dropped(&mut self, n: u64)
        ensures { self.new ≡ count_dropped self.old n }
    {
        self.dropped_packets = self.dropped_packets.wrapping_add(n);
    }

    // One gap, of however many datagrams.
    pub fn record_gap(&mut self)
        ensures { self.new ≡ count_gap self.old }
    {
        self.gaps_detected = self.gaps_detected.wrapping_add(1);
    }

    pub fn record_malformed(&mut self)
        ensures { self.new ≡ count_malformed self.old }
    {
        self.malformed_packets = self.malformed_packets.wrapping_add(1);
    }

    // The samples of the datagrams lost, modulo 2^64.
    #[tactic(auto, unfolding(crate::specs::Counters::loss_total))]
    pub fn loss_total(self) -> u64
        ensures { result ≡ loss_total self }
    {
        self.dropped_packets.wrapping_mul(SAMPLES_PER_DATAGRAM)
    }
}
