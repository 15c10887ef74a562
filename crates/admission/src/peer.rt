//! By what text a peer is bound, counted and told.

ghost use Rattle.std.specs.Prelude.{IfOk};
ghost use Rattle.admission.specs.Peers.{IsHostOf, IsNetworkOf};

use std::alloc::{AllocError, Global};
use std::net::{IpAddr, Ipv6Addr};
use wire_types::Text;

/// The host of a peer: its address without the port, in the text of RFC 5952. An IPv4 address is one also where it comes inside
/// one of IPv6 (RFC 4291, section 2.5.5.2), as each does to a listener on `[::]`: else a binding for `127.0.0.1` would be for
/// nobody there. An error is an allocation failure.
pub fn host_of(alloc: Global, peer: IpAddr) -> Result<Text, AllocError>
    ensures { IfOk result (λ host. IsHostOf peer host) }
{
    let address = peer.to_canonical();
    Text::from_string(format!(in alloc; "{address}")?)
}

/// By what text a peer's connections are counted: its host, or, of an address of IPv6, its first 64 bits, since a host has all
/// addresses that begin with them (RFC 4291, section 2.5.4): `2001:db8:1:2::/64`. An error is an allocation failure.
pub fn network_of(alloc: Global, peer: IpAddr) -> Result<Text, AllocError>
    ensures { IfOk result (λ network. IsNetworkOf peer network) }
{
    match peer.to_canonical() {
        IpAddr::V4(address) => Text::from_string(format!(in alloc; "{address}")?),
        IpAddr::V6(address) => {
            let [a, b, c, d, ..] = address.segments();
            let network = Ipv6Addr::new(a, b, c, d, 0, 0, 0, 0);
            Text::from_string(format!(in alloc; "{network}/64")?)
        }
    }
}
