//! Ports of packets.
ghost use Rattle.std.specs.Prelude.{◌≡◌};
ghost use Rattle.fx_pcap.specs.Ip as ip;

/// The number of octets of the two ports.
pub(crate) const PORTS: usize = 4;

/// Returns whether packets of the protocol begin with two ports, which is true of TCP, UDP and SCTP.
pub(crate) fn begins_with_ports(protocol: u8) -> bool
    ensures { result ≡ ip.begins_with_ports protocol }
{
    protocol == 6 || protocol == 17 || protocol == 132
}
