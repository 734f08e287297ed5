//! The next line among the octets of a text.
ghost use Rattle.std.specs.Prelude.{◌≡◌, ◌+◌, ◌-◌, ◌*◌, ◌≤◌, ◌<◌, length, IfOk, IfErr, IfSome, IfNone};
ghost use Rattle.fx_base.specs.Limits.{call_limit};
ghost use Rattle.fx_base.specs.Device.{IsAsked};
ghost use Rattle.fx_base.specs.Lines.{line_len};
ghost use Rattle.fx_base.specs.Part.{IsPart, IsWhyNoLine, calls_of_part};
ghost use Rattle.fx_base.specs.Window.{octets_of};

use crate::source::Source;
use crate::window::Window;
use memchr::memchr;

/// The greatest number of bytes of a line, not counting its line feed.
pub(crate) const LONGEST: usize = 4096;

/// The number of bytes that can be held at once.
pub(crate) const ROOM: usize = 8192;

/// The reason why a reader stops.
#[derive(Clone, Copy)]
pub(crate) enum LineStop {
    Device,
    TooLong,
}

/// The number of bytes of the line at the front of the held octets, without and with its line feed.
#[derive(Clone, Copy)]
pub(crate) struct LinePart {
    pub(crate) line: usize,
    pub(crate) taken: usize,
}

/// Returns the index of the first line feed.
fn line_feed(bytes: &[u8]) -> Option<usize>
    ensures found { IfSome result (λ n. (n ≡ line_len bytes.now) × (n < length bytes.now)) }
    ensures none { IfNone result (line_len bytes.now ≡ length bytes.now) }
{
    memchr(b'\n', bytes)
}

/// Reads until the next line is held, and returns how many of the held octets it takes; 0 at the end.
pub(crate) fn find_line<R: Source>(window: &mut Window<R>) -> Result<LinePart, LineStop>
    requires { window.old.room ≡ ROOM }
    ensures octets { octets_of window.new ≡ octets_of window.old }
    ensures room { window.new.room ≡ ROOM }
    ensures part { IfOk result (λ part. IsPart part window.new.held window.new.left) }
    ensures smaller { IfOk result (λ part. 0 < part.taken
        → (call_limit - window.new.calls) * (ROOM + 1) + (length window.new.held - part.taken)
        < (call_limit - window.old.calls) * (ROOM + 1) + length window.old.held) }
    ensures spent { IfOk result (λ part. window.new.calls + length window.old.held
        ≤ window.old.calls + length window.new.held + calls_of_part part) }
    ensures calls { window.old.calls ≤ window.new.calls }
    ensures asked { IsAsked window.old.asked (window.new.calls - window.old.calls)
        window.new.asked }
    ensures stop { IfErr result (λ stop. IsWhyNoLine stop window.old window.new) }
{
    'reading: loop {
        let bytes = window.octets();
        let held = bytes.len();
        if let Some(n) = line_feed(bytes) {
            if n > LONGEST {
                return Err(LineStop::TooLong);
            }
            return Ok(LinePart {
                line: n,
                taken: n + 1,
            });
        }
        if held > LONGEST {
            return Err(LineStop::TooLong);
        }
        let Ok(()) = window.fill(held + 1) else {
            return Err(LineStop::Device);
        };
        if window.octets().len() == held {
            return Ok(LinePart {
                line: held,
                taken: held,
            });
        }
    }
}
