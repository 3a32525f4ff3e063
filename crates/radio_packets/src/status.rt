// The status packet of an overload bit.
ghost use Rattle.wire.specs.Packet.{Sent};
ghost use Rattle.radio_packets.specs.Status.{status_packet};

use wire::packet::PacketError;
use wire::status::{ADC0_OVERLOAD, STATUS_ADC_OVERLOAD, STATUS_LEN};

// Writes the packet to the front of out.
pub fn status_packet(overload: bool, out: &mut [u8]) -> Result<(), PacketError>
    ensures { Sent 60 (status_packet overload) out.old result out.new }
{
    if out.len() < STATUS_LEN {
        return Err(PacketError::NoRoom);
    }
    octets::clear(out, STATUS_LEN);
    out[STATUS_ADC_OVERLOAD] = if overload { ADC0_OVERLOAD } else { 0 };
    Ok(())
}
