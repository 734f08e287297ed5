//! Laws of the definitions of a capture's records, and of a packet's headers.
ghost use Rattle.std.specs.Prelude.{◌≡◌, ◌<◌, ◌^◌, ◌↔◌, ℕ, List};
ghost use Rattle.fx_pcap.specs.declared.header.Format.{Format};
ghost use Rattle.fx_pcap.specs.Headers.{IsHeaderByHeader};
ghost use Rattle.fx_pcap.specs.Records.{AreRecords, Records, records_of};

/// The records of octets, whose frames a reader lends, are those given by the cases, and no others.
pub fn records_by_cases()
    ensures { (format : Format) (place : ℕ) (octets : List ℕ) (records : Records)
        → place < 2 ^ 64
        → AreRecords format place octets records ↔ (records ≡ records_of format place octets) }
{}

/// An IPv6 header leads to what the next header leads to in the octets after the first.
pub fn headers_one_by_one()
    ensures { (header : ℕ) (octets : List ℕ) → IsHeaderByHeader header octets }
{}
