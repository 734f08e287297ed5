//! Laws of what is sent.
ghost use Rattle.fx_link.specs.Ongoing.{PuttingSends};
ghost use Rattle.fx_link.specs.Outgoing.{FlushesAreSent};
ghost use Rattle.fx_link.specs.Sending.{BatchesAreRead, RecordsAreRead};
ghost use Rattle.fx_link.specs.Wires.{CarryingTakes, InStep, SendingAdds, new_wire};

/// States that what is written for records sent together is read as exactly those records, in order, by a session that
/// has read all that was put on the link before.
pub fn records_are_read()
    ensures batch { BatchesAreRead }
    ensures all { RecordsAreRead }
    ensures flushed { FlushesAreSent }
{}

/// States that on a link whose receiver would read all that was put on it, records that are sent follow those that are
/// there, and octets that are carried complete the first of them; its receiver still would read all. What is put on a
/// link, record by record, is sent once the link is finished. A new link is such a link.
pub fn links_keep_records()
    ensures begins { InStep new_wire }
    ensures putting { PuttingSends }
    ensures sending { SendingAdds }
    ensures carrying { CarryingTakes }
{}
