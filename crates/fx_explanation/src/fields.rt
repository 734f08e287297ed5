//! Descriptions of the fields of templates.
use crate::explanation::{Explanation, between};
use fx_elements::{Element, by_id, width};
use fx_wire::{FieldSpecifier, VARIABLE};

/// The maximum number of fields of a template that are written.
const FIELDS: usize = 20;

/// The elements of the IANA registry (RFC 7012) that exporters send, with their numbers, but for those of the axes.
const ELEMENTS: [(u16, &str); 55] = [
    (1, "octetDeltaCount"),
    (2, "packetDeltaCount"),
    (3, "deltaFlowCount"),
    (6, "tcpControlBits"),
    (9, "sourceIPv4PrefixLength"),
    (10, "ingressInterface"),
    (13, "destinationIPv4PrefixLength"),
    (14, "egressInterface"),
    (15, "ipNextHopIPv4Address"),
    (16, "bgpSourceAsNumber"),
    (17, "bgpDestinationAsNumber"),
    (21, "flowEndSysUpTime"),
    (22, "flowStartSysUpTime"),
    (23, "postOctetDeltaCount"),
    (24, "postPacketDeltaCount"),
    (29, "sourceIPv6PrefixLength"),
    (30, "destinationIPv6PrefixLength"),
    (31, "flowLabelIPv6"),
    (32, "icmpTypeCodeIPv4"),
    (34, "samplingInterval"),
    (44, "sourceIPv4Prefix"),
    (45, "destinationIPv4Prefix"),
    (50, "samplerRandomInterval"),
    (56, "sourceMacAddress"),
    (58, "vlanId"),
    (61, "flowDirection"),
    (62, "ipNextHopIPv6Address"),
    (80, "destinationMacAddress"),
    (82, "interfaceName"),
    (83, "interfaceDescription"),
    (85, "octetTotalCount"),
    (86, "packetTotalCount"),
    (89, "forwardingStatus"),
    (95, "applicationId"),
    (96, "applicationName"),
    (130, "exporterIPv4Address"),
    (131, "exporterIPv6Address"),
    (136, "flowEndReason"),
    (138, "observationPointId"),
    (139, "icmpTypeCodeIPv6"),
    (143, "meteringProcessId"),
    (144, "exportingProcessId"),
    (145, "templateId"),
    (148, "flowId"),
    (149, "observationDomainId"),
    (150, "flowStartSeconds"),
    (151, "flowEndSeconds"),
    (152, "flowStartMilliseconds"),
    (153, "flowEndMilliseconds"),
    (160, "systemInitTimeMilliseconds"),
    (169, "destinationIPv6Prefix"),
    (170, "sourceIPv6Prefix"),
    (210, "paddingOctets"),
    (306, "samplingPacketSpace"),
    (311, "samplingProbability"),
];

/// Returns the name of an information element of the IANA registry, or an empty text if it isn't one that exporters
/// often send.
pub fn element_name(number: u16) -> &'static str {
    if let Element::OnAxis(axis) = by_id(number, 0) {
        return axis.name();
    }
    for (known, name) in &ELEMENTS {
        if *known == number {
            return name;
        }
    }
    ""
}

/// Writes a field's element: its name, if known, and its number and enterprise.
pub fn write_element(out: &mut Explanation, field: &FieldSpecifier) {
    let number = u64::from(field.element);
    if let Some(enterprise) = field.enterprise {
        out.text_number("element ", number);
        out.text_number(" of enterprise ", u64::from(enterprise));
        return;
    }
    match element_name(field.element) {
        "" => out.text_number("element ", number),
        name => {
            out.text(name);
            out.text_number(" (element ", number);
            out.text(")");
        }
    }
}

/// Writes a field: its element and its length.
pub fn write_field(out: &mut Explanation, field: &FieldSpecifier) {
    write_element(out, field);
    if field.field_length == VARIABLE {
        out.text(" of variable length");
        return;
    }
    out.text_number(" of length ", u64::from(field.field_length));
}

/// Writes the fields of a template.
pub(crate) fn write_fields_of(out: &mut Explanation, fields: &[FieldSpecifier]) {
    let shown = fields.len().min(FIELDS);
    for index in 0..shown {
        out.text(between(index > 0, ", "));
        write_field(out, &fields[index]);
    }
    if shown < fields.len() {
        out.text(", ..");
    }
}

/// Writes the lengths, in octets, that the values of a field's element may have.
pub fn write_allowed_length(out: &mut Explanation, field: &FieldSpecifier) {
    let wide = match by_id(field.element, field.enterprise.unwrap_or(0)) {
        Element::OnAxis(axis) | Element::Prefix(axis) => width(axis) / 8,
        Element::PrefixLength(_) => 1,
        _ => {
            out.text("; it must have 1 octet at least");
            return;
        },
    };
    match wide {
        1 => out.text("; it must have 1 octet"),
        2 => out.text("; it must have 1 or 2 octets"),
        _ => {
            out.text_number("; it must have ", u64::from(wide));
            out.text(" octets");
        },
    }
}
