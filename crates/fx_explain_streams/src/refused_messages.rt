//! Explaining why messages are malformed or truncated.
use crate::stream_watch::{MessageAt, RefusedMessage, SetAt};
use fx_explanation::{Explanation, format_of, number16, part, write_digits};
use fx_wire::Malformed;

/// The size of a message's header in octets.
const HEADER: usize = 16;

/// Adds which message it is.
pub(crate) fn put_message(out: &mut Explanation, message: &MessageAt) {
    out.text_number("message ", message.number);
    out.text_number(" of the stream, from octet ", message.place);
    out.text_number(" on: length ", message.length);
    out.text_number(", observation domain ", u64::from(message.domain));
    out.end_line();
}

/// Adds a set: where it begins in the stream, its id and its length.
pub(crate) fn put_set(out: &mut Explanation, set: &SetAt) {
    out.text_number("the set at octet ", set.place);
    out.text_number(" (id ", u64::from(set.id));
    out.text_number(", length ", set.length);
    out.text(")");
}

/// Adds the first octets of the message.
fn put_start(out: &mut Explanation, refused: &RefusedMessage) {
    let octets = refused.octets.as_slice();
    out.text_number("message ", refused.message.number);
    out.text_number(" of the stream, from octet ", refused.message.place);
    out.text(" on: its first octets are");
    write_digits(out, part(octets, 0, octets.len().min(HEADER)));
    out.end_line();
}

/// Adds what was found instead of a message of version 10.
fn put_version(out: &mut Explanation, refused: &RefusedMessage) {
    put_start(out, refused);
    match format_of(refused.octets.as_slice()) {
        Some(words) => out.sentence(words),
        None => {
            out.text_number(
                "their version is ",
                u64::from(number16(refused.octets.as_slice(), 0)),
            );
            out.sentence(" instead of 10");
        }
    }
    if refused.message.number == 1 {
        return;
    }
    out.text_number(
        "messages before it: ",
        refused.message.number.saturating_sub(1),
    );
    out.sentence(
        "; either the last of them has a wrong length, or there are other octets in between",
    );
}

/// Adds that the stream ends inside the message's header.
fn put_cut_header(out: &mut Explanation, octets: &[u8]) {
    out.text_number(
        "the stream ends within the 16 octets of its header; octets left: ",
        octets.len() as u64,
    );
    out.end_line();
    if let Some(words) = format_of(octets) {
        out.sentence(words);
    }
}

/// Adds why the message's length is wrong.
fn put_length(out: &mut Explanation, refused: &RefusedMessage) {
    put_start(out, refused);
    let octets = refused.octets.as_slice();
    if octets.len() < HEADER {
        put_cut_header(out, octets);
        return;
    }
    out.text_number("the length in its header is ", refused.message.length);
    if refused.message.length < HEADER as u64 {
        out.sentence(", which is below the 16 of the header itself");
        return;
    }
    out.text_number(
        ", and the stream ends before that; octets left: ",
        octets.len() as u64,
    );
    out.end_line();
}

/// Returns whether this set id is reserved.
fn is_reserved(id: u16) -> bool {
    id < 256 && id != 2 && id != 3
}

/// Returns the first set of the message that has fewer than 4 octets, extends past the message's end or has a reserved
/// id, and the number of octets of the message from there on, or `None` if there is no such set.
fn first_wrong_set(refused: &RefusedMessage) -> Option<(SetAt, usize)> {
    let message = part(
        refused.octets.as_slice(),
        0,
        refused.message.length as usize,
    );
    let mut place = HEADER;
    for _ in 0..message.len() {
        let left = message.len().saturating_sub(place);
        let length = number16(message, place.saturating_add(2));
        let set = SetAt {
            id: number16(message, place),
            place: refused.message.place.saturating_add(place as u64),
            length: u64::from(length),
        };
        if left == 0 {
            return None;
        }
        if left < 4 || length < 4 || usize::from(length) > left || is_reserved(set.id) {
            return Some((set, left));
        }
        place = place.saturating_add(usize::from(length));
    }
    None
}

/// Adds why the length of a set is wrong, given the number of octets left in its message.
fn put_set_length(out: &mut Explanation, set: &SetAt, left: usize) {
    if left < 4 {
        out.text_number("at octet ", set.place);
        out.text_number(
            " the message has octets left, but fewer than the 4 of a set's header: ",
            left as u64,
        );
        out.end_line();
        return;
    }
    put_set(out, set);
    if set.length < 4 {
        out.sentence(": its length counts its header too, so it must be 4 at least");
        return;
    }
    out.text_number(
        ": it passes its message's end; octets left in the message: ",
        left as u64,
    );
    out.end_line();
}

/// Adds that the id of a set is reserved.
fn put_reserved(out: &mut Explanation, set: &SetAt) {
    put_set(out, set);
    out.sentence(if set.id < 2 {
        ": this id is that of NetFlow 9's templates; those of IPFIX have ids 2 and 3"
    } else {
        ": this id is reserved"
    });
}

/// Adds what is wrong with a malformed or truncated message.
pub(crate) fn put_malformed(out: &mut Explanation, refused: &RefusedMessage, why: Malformed) {
    match why {
        Malformed::Version => put_version(out, refused),
        Malformed::MessageLength => put_length(out, refused),
        _ => {
            put_message(out, &refused.message);
            if let Some((set, left)) = first_wrong_set(refused) {
                match why {
                    Malformed::SetId => put_reserved(out, &set),
                    _ => put_set_length(out, &set, left),
                }
            }
        }
    }
}
