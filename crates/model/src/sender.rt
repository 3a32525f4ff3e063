// Where a datagram came from.

#[derive(Clone, Copy)]
pub enum Sender {
    // an IPv4 address, its first octet the highest, and a port
    V4 { ip: u32, port: u16 },
    V6,
}
