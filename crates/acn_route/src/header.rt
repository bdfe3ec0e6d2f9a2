//! The header of a space packet.

ghost use Rattle.std.specs.Prelude.{◌≡◌, ◌<◌, ◌≤◌, length, take, MatchOption, IfSome};
ghost use Rattle.acn_route.specs.Space.{IsSpacePacket, IsUnfinished, apid_of, packet_length};
ghost use Rattle.acn_route.specs.declared.header.TheConstants.{MOST_PACKET_OCTETS};
ghost use Rattle.acn_supply.specs.declared.window.TheConstants.{MOST_IN_HAND};

// The octets of a packet's primary header.
const HEADER_OCTETS: usize = 6;

/// The most octets that a space packet has: 6 of its header, and 65,536 behind it.
pub const MOST_PACKET_OCTETS: usize = 65_542;

// How many octets the packet has that begins with these, where they hold its header.
fn packet_size(bytes: &[u8]) -> Option<usize>
    ensures size { result ≡ packet_length bytes.now }
    ensures most { IfSome result (λ n. n ≤ MOST_PACKET_OCTETS) }
{
    if bytes.len() < HEADER_OCTETS {
        return None;
    }
    Some(7 + (256 * usize::from(bytes[4]) + usize::from(bytes[5])))
}

/// The size of the whole packet at the front of the bytes.
pub fn whole_packet(bytes: &[u8]) -> Option<usize>
    ensures packet { IfSome result (λ n. (n ≤ length bytes.now) × (0 < n) × (n ≤ MOST_PACKET_OCTETS) × IsSpacePacket (take n bytes.now)) }
    ensures wanting { result ≡ None → IsUnfinished bytes.now × (length bytes.now < MOST_IN_HAND) }
{
    match packet_size(bytes) {
        None => None,
        Some(size) => {
            if size > bytes.len() {
                return None;
            }
            Some(size)
        }
    }
}

/// The application process identifier of a packet.
pub fn packet_apid(packet: &[u8]) -> u32
    ensures { result ≡ apid_of packet.now }
{
    if packet.len() < 2 {
        return 0;
    }
    256 * u32::from(packet[0] % 8) + u32::from(packet[1])
}
