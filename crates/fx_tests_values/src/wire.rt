//! Messages that are read and written, with their templates and records.
use crate::answers::ends;
use fx_base::Room;
use fx_elements::{Axis, Element};
use fx_wire::{
    FieldSpecifier, FieldSpecifiers, Header, Malformed, Parsed, Set, Sets, TemplateHeading,
    TemplateKind, VARIABLE, can_have, cut_record, cut_value, message_length, messages_are_read,
    parse, put_message, read_heading, shortest_record,
};

/// A template of a source address and the two counters (id 256), and a record: 10.0.0.1, 300 octets, 2 packets.
const FIRST: [u8; 60] = [
    0x00, 0x0a, 0x00, 0x3c, 0, 0, 0, 2, 0, 0, 0, 0, 0, 0, 0, 0, // the header
    0x00, 0x02, 0x00, 0x14, 0x01, 0x00, 0x00, 0x03, 0x00, 0x08, 0x00, 0x04, 0x00, 0x01, 0x00, 0x08,
    0x00, 0x02, 0x00, 0x08, // the template
    0x01, 0x00, 0x00, 0x18, 10, 0, 0, 1, 0, 0, 0, 0, 0, 0, 0x01, 0x2c, 0, 0, 0, 0, 0, 0, 0, 2,
];

/// The next message, a record of that template: 10.0.0.1, 300 octets, 1 packet.
const SECOND: [u8; 40] = [
    0x00, 0x0a, 0x00, 0x28, 0, 0, 0, 3, 0, 0, 0, 1, 0, 0, 0, 0, // the header
    0x01, 0x00, 0x00, 0x18, 10, 0, 0, 1, 0, 0, 0, 0, 0, 0, 0x01, 0x2c, 0, 0, 0, 0, 0, 0, 0, 1,
];

/// The header of that message.
const HEADER: Header = Header {
    export_time: 3,
    sequence_number: 1,
    observation_domain: 0,
};

/// Returns whether the sets are those of the first message: a template set and a data set.
fn are_first(mut sets: Sets<'_>) -> bool {
    let (Some(first), Some(second)) = (sets.next(), sets.next()) else {
        return false;
    };
    first.id == 2 && second.id == 256 && second.content == &FIRST[40..] && sets.next().is_none()
}

#[test]
fn reads_a_message(rt: HostRuntime) {
    let held = match parse(&FIRST) {
        Parsed::Message(message) => {
            let header = message.header();
            header.export_time == 2 && header.sequence_number == 0 && are_first(message.sets())
        }
        _ => false,
    };
    assert!(rt; held);
}

#[test]
fn needs_all_octets(rt: HostRuntime) {
    for count in 0..60usize {
        assert!(rt; matches!(parse(&FIRST[..count]), Parsed::NeedsMore));
    }
}

/// Returns the number with which a message is refused, or 0.
fn refusal(octets: &[u8]) -> u16 {
    match parse(octets) {
        Parsed::Refused(why) => why.number(),
        _ => 0,
    }
}

/// Messages that are refused, and their numbers.
const REFUSED: [(&[u8], u16); 4] = [
    (&[0, 9, 0, 16, 0, 0, 0, 0, 0, 0, 0, 0, 0, 0, 0, 0], 611),
    (&[0, 10, 0, 15, 0, 0, 0, 0, 0, 0, 0, 0, 0, 0, 0, 0], 612),
    (
        &[0, 10, 0, 20, 0, 0, 0, 0, 0, 0, 0, 0, 0, 0, 0, 0, 1, 0, 0, 3],
        613,
    ),
    (
        &[0, 10, 0, 20, 0, 0, 0, 0, 0, 0, 0, 0, 0, 0, 0, 0, 0, 5, 0, 4],
        615,
    ),
];

#[test]
fn refuses_in_order(rt: HostRuntime) {
    for (octets, number) in &REFUSED {
        assert!(rt; refusal(*octets) == *number);
    }
}

#[test]
fn writes_a_message(rt: HostRuntime) {
    messages_are_read();
    let sets = [Set {
        id: 256,
        content: &SECOND[20..],
    }];
    let mut room = [0u8; 64];
    let mut sink = Room::new(&mut room);
    let is_put = ends(put_message(&mut sink, &HEADER, &sets), 0);
    assert!(rt;
        is_put & (message_length(&sets) == Some(40)) & (sink.octets() == SECOND.as_slice())
    );
}

/// Returns the length of a message with one set of this content, if there is such a message.
fn length_with(content: &[u8]) -> Option<u16> {
    message_length(&[Set { id: 256, content }])
}

#[test]
fn tells_lengths_up_to_65535(rt: HostRuntime) {
    let content = vec![in rt.alloc(); 0; 65_516].expect(&rt, "memory");
    assert!(rt;
        (length_with(&content[1..]) == Some(65_535)) & length_with(content.as_slice()).is_none()
    );
}

#[test]
fn refuses_to_write_past_the_room(rt: HostRuntime) {
    let mut room = [0u8; 15];
    assert!(rt; ends(put_message(&mut Room::new(&mut room), &HEADER, &[]), 902));
}

/// Returns whether fields are of these elements, and no octets follow them.
fn are_of(mut fields: FieldSpecifiers<'_>, elements: &[Element]) -> bool {
    let mut all = true;
    for element in elements {
        all &= matches!(fields.next(), Some(Ok(field)) if field.element() == *element);
    }
    all && fields.next().is_none() && fields.rest().is_empty()
}

/// The elements of the first message's template.
const OF_FIRST: [Element; 3] = [
    Element::OnAxis(Axis::Source),
    Element::OctetDeltaCount,
    Element::PacketDeltaCount,
];

#[test]
fn reads_a_template(rt: HostRuntime) {
    let held = match read_heading(TemplateKind::Plain, &FIRST[20..36]) {
        Ok((TemplateHeading::Declaration(new), rest)) => {
            new.id == 256 && are_of(FieldSpecifiers::new(new.count, rest), &OF_FIRST)
        }
        _ => false,
    };
    assert!(rt; held);
}

#[test]
fn refuses_a_short_address(rt: HostRuntime) {
    let mut fields = FieldSpecifiers::new(1, &[0, 8, 0, 3]);
    assert!(rt;
        fields.next() == Some(Err(Malformed::Template))
            && !can_have(Element::OnAxis(Axis::Source), VARIABLE)
    );
}

/// Fields of a source address, a source prefix, its length and the version.
const IPV6: [u8; 16] = [0, 27, 0, 16, 0, 170, 0, 16, 0, 29, 0, 1, 0, 60, 0, 1];

/// The elements of those fields.
const OF_IPV6: [Element; 4] = [
    Element::OnAxis(Axis::Source6),
    Element::Prefix(Axis::Source6),
    Element::PrefixLength(Axis::Source6),
    Element::OnAxis(Axis::Version),
];

#[test]
fn reads_fields_of_ipv6(rt: HostRuntime) {
    assert!(rt; are_of(FieldSpecifiers::new(4, &IPV6), &OF_IPV6));
}

/// Elements, the length of their fields, and lengths that they can't have.
const LENGTHS: [(Element, u16, [u16; 3]); 6] = [
    (Element::OnAxis(Axis::Destination), 4, [3, 16, VARIABLE]),
    (Element::OnAxis(Axis::Destination6), 16, [4, 15, VARIABLE]),
    (Element::Prefix(Axis::Destination), 4, [3, 16, VARIABLE]),
    (Element::Prefix(Axis::Destination6), 16, [4, 17, VARIABLE]),
    (
        Element::PrefixLength(Axis::Destination6),
        1,
        [0, 2, VARIABLE],
    ),
    (Element::OnAxis(Axis::Version), 1, [0, 2, VARIABLE]),
];

#[test]
fn takes_whole_addresses_alone(rt: HostRuntime) {
    for (element, length, [first, second, third]) in &LENGTHS {
        assert!(rt;
            can_have(*element, *length)
                & !can_have(*element, *first)
                & !can_have(*element, *second)
                & !can_have(*element, *third)
        );
    }
}

/// A source address, and an interface name of variable length.
const FIELDS: [FieldSpecifier; 2] = [
    FieldSpecifier {
        element: 8,
        field_length: 4,
        enterprise: None,
    },
    FieldSpecifier {
        element: 82,
        field_length: VARIABLE,
        enterprise: None,
    },
];

/// A record of those fields, and an octet after it.
const RECORD: [u8; 9] = [10, 0, 0, 1, 3, b'e', b't', b'h', 9];

#[test]
fn cuts_a_record(rt: HostRuntime) {
    let behind = [9].as_slice();
    assert!(rt;
        (shortest_record(&FIELDS) == 5)
            & (cut_record(&FIELDS, &RECORD) == Some(behind))
            & cut_record(&FIELDS, &RECORD[..7]).is_none()
            & (cut_value(VARIABLE, &RECORD[4..]) == Some((b"eth".as_slice(), behind)))
    );
}
