// Packets, written into a lent buffer one after another, and the streams that they went to.
ghost use Rattle.std.specs.Prelude.{◌≡◌, ◌≤◌, [], length};
ghost use Rattle.octets.specs.Written.{Put};
ghost use Rattle.model.specs.Sending as Sending;
ghost use Rattle.model.specs.Command.{streams_as};
ghost use Rattle.wire.specs.Command.{size_of};
ghost use Rattle.sending.specs.Progress.{appended, started, Sends, HasRoom};

use model::command::Streams;
use model::session::Common;
use wire::command::Stream;
use wire::packet::{
    GENERAL_LEN, HIGH_PRIORITY_LEN, RX_SPECIFIC_LEN, TX_SPECIFIC_LEN, general_packet,
    high_priority_packet, rx_specific_packet, tx_specific_packet,
};

// What is common, the streams written so far, and where the last packet ended.
#[derive(Clone, Copy)]
pub struct Progress {
    pub common: Common,
    pub streams: Streams,
    pub end: usize,
}

// What a call lists that wrote no packet.
pub fn no_streams() -> Streams
    ensures { result ≡ streams_as [] }
{
    Streams {
        offsets: [0; 5],
        count: 0,
    }
}

// Nothing is written yet.
pub fn start(common: Common) -> Progress
    ensures { result ≡ started common }
{
    Progress {
        common,
        streams: no_streams(),
        end: 0,
    }
}

// The level in dB that the packets carry: 0 with attenuation off.
pub fn level(c: Common) -> u8
    ensures { result ≡ Sending.level c.attenuation }
{
    match c.attenuation {
        None => 0,
        Some(controller) => controller.db,
    }
}

// The next packet of a stream, at the front of `out`, which has room for it; its length. `run` matters for high priority alone.
fn put_packet(c: Common, stream: Stream, run: bool, out: &mut [u8]) -> usize
    requires { size_of stream ≤ length out.old }
    ensures { Put out.old 0 (Sending.packet_of stream run c) result out.new }
{
    let board = c.settings.board;
    let db = level(c);
    match stream {
        Stream::General => {
            let _ = general_packet(c.seq[0], board, out);
            GENERAL_LEN
        }
        Stream::RxSpecific => {
            let _ = rx_specific_packet(c.seq[1], board, c.tuning.rate_khz, out);
            RX_SPECIFIC_LEN
        }
        Stream::TxSpecific => {
            let _ = tx_specific_packet(c.seq[2], out);
            TX_SPECIFIC_LEN
        }
        Stream::HighPriority => {
            let alex = c.tuning.alex;
            let _ = high_priority_packet(
                c.seq[3],
                run,
                c.tuning.phase_word,
                alex.alex0,
                alex.alex1,
                db,
                out,
            );
            HIGH_PRIORITY_LEN
        }
    }
}

// One stream more is listed.
fn list(streams: &mut Streams, offset: u8)
    requires { streams.old.count ≤ 4 }
    ensures { streams.new ≡ appended streams.old offset }
{
    streams.offsets[streams.count] = offset;
    streams.count += 1;
}

// Writes the next packet of a stream from the current end of the buffer on, and raises that stream's count.
pub fn send(p: &mut Progress, stream: Stream, run: bool, packets: &mut [u8])
    requires { HasRoom (size_of stream) 1 p.old (length packets.old) }
    ensures { Sends (Sending.send stream run p.old.common) p.old packets.old p.new packets.new }
{
    let length = put_packet(p.common, stream, run, &mut packets[p.end..]);
    let offset = stream.offset();
    list(&mut p.streams, offset);
    let i = offset as usize;
    p.common.seq[i] = p.common.seq[i].wrapping_add(1);
    p.end += length;
}

// Run turned off, by two high priority packets.
pub fn send_stop(p: &mut Progress, packets: &mut [u8])
    requires { HasRoom 2888 2 p.old (length packets.old) }
    ensures { Sends (Sending.stop_packets p.old.common) p.old packets.old p.new packets.new }
{
    send(p, Stream::HighPriority, false, packets);
    send(p, Stream::HighPriority, false, packets)
}
