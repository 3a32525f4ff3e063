// A session and a practice radio, each at the other's end: what is claimed of the two over every list of calls, and its proof. There is
// no code: the radio's is in radio and radio_packets, and the session's in the crates of the calls.
#![tactic(auto)]
