// The functions on octets, doubles, packets, datagrams and numbers that a case can name, each called with the numbers and octets of a
// case.
#![tactic(auto)]

pub mod double_cases;
pub mod octet_cases;
pub mod packet_cases;
pub mod wire_cases;
