//! What is wrong with a text that should be a value of an axis.
use fx_elements::{Axis, Element, read_number, read_on, top, width};
use fx_explanation::{Explanation, are_digits, element_name};

/// The maximum length, in octets, of a text that is examined.
const LONGEST: usize = 200;

/// Returns what is wrong with a number in an IPv4 address.
fn number_words(text: &str) -> Option<&'static str> {
    if read_number(text.as_bytes(), 255).is_some() {
        return None;
    }
    if text.is_empty() {
        return Some(" is no number");
    }
    if !are_digits(text.as_bytes()) {
        return Some(" isn't a number in decimal digits");
    }
    if text.starts_with('0') {
        return Some(" has a zero in front");
    }
    Some(" is more than 255")
}

/// Writes what is wrong with an IPv4 address.
fn write_quad(out: &mut Explanation, text: &str) {
    let mut count: u64 = 0;
    for part in text.split('.') {
        count = count.saturating_add(1);
        if let Some(words) = number_words(part) {
            out.text_quoted("in the address ", text);
            out.text_quoted(" ", part);
            out.sentence(words);
            return;
        }
    }
    out.text_quoted("the address ", text);
    out.text_number(" has this many numbers between dots: ", count);
    out.sentence("; one of IPv4 has four");
}

/// Returns whether all these characters are allowed in an IPv6 address.
fn are_of_address6(octets: &[u8]) -> bool {
    for octet in octets {
        if !octet.is_ascii_hexdigit() && *octet != b':' && *octet != b'.' {
            return false;
        }
    }
    true
}

/// Returns whether a group of an IPv6 address has too many digits.
fn has_long_group(text: &str) -> bool {
    for group in text.split(':') {
        if group.len() > 4 && !group.contains('.') {
            return true;
        }
    }
    false
}

/// Returns what is wrong with an IPv6 address.
fn wide_words(text: &str) -> &'static str {
    if !are_of_address6(text.as_bytes()) {
        return " has characters that are none of 0 to 9, a to f, : and .";
    }
    if !text.contains(':') {
        return " has no colon: it is none of IPv6";
    }
    if has_long_group(text) {
        return " has a group of more than four digits";
    }
    match text.split_once("::") {
        Some((_, after)) if after.contains("::") || after.starts_with(':') =>
            " has :: twice; it may occur once",
        _ => " hasn't eight groups between colons, nor fewer and :: once",
    }
}

/// Writes what is wrong with an IPv6 address.
fn write_wide(out: &mut Explanation, text: &str) {
    out.text_quoted("the address ", text);
    out.sentence(wide_words(text));
}

/// Writes the numbers that are allowed on an axis.
fn write_number(out: &mut Explanation, axis: Axis) {
    out.text("allowed there: a number from 0 to ");
    out.value(axis, top(axis));
    out.text(", in decimal digits without a zero in front");
    if axis == Axis::Protocol {
        out.text(" (ICMP is 1, TCP 6, UDP 17, ICMPv6 58)");
    }
    out.end_line();
}

/// Writes what is wrong with a text that should be a single value of an axis, if anything is.
fn write_single(out: &mut Explanation, axis: Axis, text: &str) {
    if read_on(axis, text.as_bytes()).is_some() {
        return;
    }
    if axis.is_wide() {
        write_wide(out, text);
    } else if !axis.is_address() {
        write_number(out, axis);
    } else if text.contains(':') {
        out.text_quoted("the address ", text);
        out.sentence(" is none of IPv4; for one of IPv6 name an element of IPv6");
    } else {
        write_quad(out, text);
    }
}

/// Writes what is wrong with the number of bits after an address, if anything is.
fn write_bits(out: &mut Explanation, axis: Axis, text: &str) {
    let Some(bits) = read_number(text.as_bytes(), u128::from(width(axis))) else {
        out.text_quoted("the length of the prefix is ", text);
        out.text_number(
            "; allowed there: a number from 1 to ",
            u64::from(width(axis)),
        );
        out.sentence(" without a zero in front");
        return;
    };
    if bits > 0 {
        return;
    }
    out.sentence("a prefix has 1 bit at least; for all addresses leave it out");
}

/// Writes what is wrong with a text that should be a prefix, if anything is.
fn write_prefix(out: &mut Explanation, axis: Axis, text: &str) {
    let Some((address, bits)) = text.split_once('/') else {
        out.quoted(text);
        out.sentence(" has no /n: a prefix is an address, / and the number of its leading bits");
        return;
    };
    write_single(out, axis, address);
    write_bits(out, axis, bits);
}

/// Writes what is wrong with a text that should be two values of an axis.
fn write_ends<'x>(out: &mut Explanation, axis: Axis, low: &'x str, high: &'x str) {
    let Some(least) = read_on(axis, low.as_bytes()) else {
        write_single(out, axis, low);
        return;
    };
    let Some(greatest) = read_on(axis, high.as_bytes()) else {
        write_single(out, axis, high);
        return;
    };
    if least <= greatest {
        return;
    }
    out.text(low);
    out.text(" is above ");
    out.text(high);
    out.sentence("; the lower value comes first");
}

/// Writes what is wrong with a text that should be a value of an element, or a prefix.
pub(crate) fn write_spelling(out: &mut Explanation, element: Element, text: &str) {
    if text.len() > LONGEST {
        return;
    }
    match element {
        Element::OnAxis(axis) if axis.is_address() && text.contains('/') => {
            out.text("the element has one address; for a prefix name ");
            out.text(element_name(axis.prefix_number()));
            out.sentence(" in its place");
        }
        Element::OnAxis(axis) | Element::Prefix(axis) if is_range(axis, text) => out.sentence(
            "one value or a prefix is allowed there; LOW-HIGH is allowed only in the regions of traffic",
        ),
        Element::OnAxis(axis) => write_single(out, axis, text),
        Element::Prefix(axis) => write_prefix(out, axis, text),
        _ => {},
    }
}

/// Returns whether a text is two values of an axis with a hyphen between them.
fn is_range(axis: Axis, text: &str) -> bool {
    match text.split_once('-') {
        Some((low, high)) => {
            read_on(axis, low.as_bytes()).is_some() && read_on(axis, high.as_bytes()).is_some()
        }
        None => false,
    }
}

/// Writes the notation of a region's values on an axis.
pub(crate) fn write_forms(out: &mut Explanation, axis: Axis) {
    out.sentence(if axis.is_address() {
        "on an axis a region has one value, LOW-HIGH without spaces, or ADDRESS/n; write a class for each of several values"
    } else {
        "on an axis a region has one value, or LOW-HIGH without spaces; write a class for each of several values"
    });
}

/// Writes what is wrong with a text that should be values of a region on an axis.
pub(crate) fn write_values(out: &mut Explanation, axis: Axis, text: &str) {
    if text.len() > LONGEST {
        return;
    }
    if matches!(text, "any" | "all" | "*" | "") {
        out.sentence("an axis on which a class has all values is left out of its region");
    } else if let Some((low, high)) = text.split_once('-') {
        write_ends(out, axis, low, high);
    } else if axis.is_address() && text.contains('/') {
        write_prefix(out, axis, text);
    } else {
        write_single(out, axis, text);
    }
    write_forms(out, axis);
}
