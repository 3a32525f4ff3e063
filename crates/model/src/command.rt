// Which command streams a call wrote, and where their packets go.
ghost use Rattle.std.specs.Prelude.{◌≡◌};
ghost use Rattle.model.specs.Command.{destination_of};

// The streams that a call wrote, in order, each as its offset from the port: the first `count` places. The others are 0.
#[derive(Clone, Copy)]
pub struct Streams {
    pub offsets: [u8; 5],
    pub count: usize,
}

// The port that a stream's packets go to: the settings' port plus the stream's offset.
pub fn destination(port: u16, offset: u8) -> u16
    ensures { result ≡ destination_of port offset }
{
    port.wrapping_add(u16::from(offset))
}
