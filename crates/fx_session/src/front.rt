//! Removal of octets that were read from a buffer.
ghost use Rattle.std.specs.Prelude.{◌≡◌, ◌≤◌, length, drop};

/// Removes the first `count` octets of a buffer. Those after them move to the front, and no memory is released.
pub fn remove_front(octets: &mut Vec<u8>, count: usize)
    requires { count ≤ length octets.old.items }
    ensures { octets.new.items ≡ drop count octets.old.items }
{
    if count == 0 {
        return;
    }
    let rest = octets.len() - count;
    octets.copy_within(count.., 0);
    octets.truncate(rest);
}
