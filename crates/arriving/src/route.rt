// What an arrival is, by its sender and its octets.
ghost use Rattle.std.specs.Prelude.{◌≡◌};
ghost use Rattle.model.specs.Routing as Routing;
ghost use Rattle.arriving.specs.Route.{route_of};

use iq::iq_header;
use model::sender::Sender;

// DDC0's I/Q: the highest source port of the radio's port map, relative to the port.
const DDC0_PORT_OFFSET: u16 = 11;

// The radio's status packets.
const STATUS_PORT_OFFSET: u16 = 1;

// The highest port that is read and ignored.
const LAST_IGNORED_PORT_OFFSET: u16 = 10;

// No closure takes it further: each route's step is written once, in `arrived`, where the four stand side by side.
#[derive(Clone, Copy)]
pub(crate) enum Route {
    // a valid I/Q datagram, with its count
    Iq(u32),
    Status,
    Ignored,
    Malformed,
}

fn by_offset(offset: u16, datagram: &[u8]) -> Route
    ensures { route_of result ≡ Routing.by_offset offset datagram.now }
{
    if offset == DDC0_PORT_OFFSET {
        let Ok(count) = iq_header(datagram) else {
            return Route::Malformed;
        };
        return Route::Iq(count);
    }
    if offset == STATUS_PORT_OFFSET {
        return Route::Status;
    }
    if offset <= LAST_IGNORED_PORT_OFFSET {
        return Route::Ignored;
    }
    Route::Malformed
}

// A wrong address, IPv6 and a port below the base are malformed.
pub(crate) fn routed(radio_ip: u32, base: u16, from: Sender, datagram: &[u8]) -> Route
    ensures { route_of result ≡ Routing.routed radio_ip base from datagram.now }
{
    let Sender::V4 { ip, port } = from else {
        return Route::Malformed;
    };
    if ip != radio_ip {
        return Route::Malformed;
    }
    if port < base {
        return Route::Malformed;
    }
    by_offset(port - base, datagram)
}
