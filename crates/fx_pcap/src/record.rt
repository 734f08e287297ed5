//! Records of a capture: a header of 16 octets, and the captured octets.
ghost use Rattle.std.specs.Prelude.{◌≡◌, ◌+◌, ◌-◌, ◌*◌, ◌≤◌, ◌<◌, length, MatchOption, None, IfOk, IfErr, IfSome};
ghost use Rattle.fx_base.specs.Limits.{call_limit};
ghost use Rattle.fx_base.specs.Device.{IsAsked};
ghost use Rattle.fx_base.specs.Window.{octets_of};
ghost use Rattle.fx_pcap.specs.FirstRecord.{HasEnded, HasRecord, IsWhyNoRecord};

use crate::order::Order;
use crate::stop::CaptureStop;
use fx_base::{Source, Window};

/// The number of octets of a record's header.
pub(crate) const RECORD_HEADER: usize = 16;

/// The greatest number of captured octets of a record.
const LONGEST: u32 = 262_144;

/// The number of octets that can be held at once: two of the longest records.
pub(crate) const ROOM: usize = 524_288;

/// Reads until the next record is held whole, and returns its number of octets, or none at the end.
pub(crate) fn find_record<R: Source>(
    window: &mut Window<R>,
    order: Order,
) -> Result<Option<usize>, CaptureStop>
    requires { window.old.room ≡ ROOM }
    ensures octets { octets_of window.new ≡ octets_of window.old }
    ensures room { window.new.room ≡ ROOM }
    ensures found { IfOk result (λ size. MatchOption size (HasEnded window.new)
        (λ n. HasRecord order n window.new.held)) }
    ensures smaller { IfOk result (λ size. IfSome size (λ n.
        (call_limit - window.new.calls) * (ROOM + 1) + (length window.new.held - n)
        < (call_limit - window.old.calls) * (ROOM + 1) + length window.old.held)) }
    ensures spent { IfOk result (λ size. MatchOption size
        (window.new.calls + length window.old.held ≤ window.old.calls + length window.new.held + 1)
        (λ _. window.new.calls + length window.old.held
        ≤ window.old.calls + length window.new.held)) }
    ensures calls { window.old.calls ≤ window.new.calls }
    ensures asked { IsAsked window.old.asked (window.new.calls - window.old.calls)
        window.new.asked }
    ensures stop { IfErr result (λ stop. IsWhyNoRecord order stop window.old window.new) }
{
    let Ok(()) = window.fill(RECORD_HEADER) else {
        return Err(CaptureStop::Device);
    };
    let octets = window.octets();
    if octets.is_empty() {
        return Ok(None);
    }
    if octets.len() < RECORD_HEADER {
        return Err(CaptureStop::Cut);
    }
    let captured = order.read32(octets, 8);
    if captured > LONGEST {
        return Err(CaptureStop::TooLong);
    }
    let size = RECORD_HEADER + captured as usize;
    let Ok(()) = window.fill(size) else {
        return Err(CaptureStop::Device);
    };
    if window.octets().len() < size {
        return Err(CaptureStop::Cut);
    }
    Ok(Some(size))
}
