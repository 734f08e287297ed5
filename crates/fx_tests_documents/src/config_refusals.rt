//! What is refused in a device's configuration, and the places.
use crate::documents::{Frame, Kind, look_at_rows};

/// A whole document.
const DOCUMENT: &Frame<'static> = &Frame {
    kind: Kind::Device,
    before: "",
    behind: "",
    pointer: "",
};

const DOCUMENTS: &[(&str, &str)] = &[
    ("[]", "104 "),
    ("{}", "103 "),
    (r#"{"x":1,"ietf-ipfix-psamp:ipfix":7}"#, "102 /x"),
    (r#"{":x":1,"ietf-ipfix-psamp:ipfix":7}"#, "102 /:x"),
    (r#"{"ietf-ipfix-psamp:x":1}"#, "102 /ietf-ipfix-psamp:x"),
    (r#"{"a:b:c":1,"foo:":2,"ietf-ipfix-psamp:ipfix":{}}"#, "ok"),
    (
        r#"{"ietf-ipfix-psamp:ipfix":[]}"#,
        "104 /ietf-ipfix-psamp:ipfix",
    ),
];

/// The container `ipfix`.
pub(crate) const LISTS: &Frame<'static> = &Frame {
    kind: Kind::Device,
    before: r#"{"ietf-ipfix-psamp:ipfix":"#,
    behind: "}",
    pointer: "/ietf-ipfix-psamp:ipfix",
};

const POINTS: &[(&str, &str)] = &[
    (r#"{"zz":1,"b/~":2}"#, "102 /b~1~0"),
    (r#"{"observationPoint":{}}"#, "104 /observationPoint"),
    (r#"{"observationPoint":[7]}"#, "104 /observationPoint/0"),
    (r#"{"observationPoint":[{}]}"#, "103 /observationPoint/0"),
    (
        r#"{"observationPoint":[{"name":"p","observationDomainId":0,"ifName":["e"],"ifIndex":3}]}"#,
        "102 /observationPoint/0/ifIndex",
    ),
    (
        r#"{"observationPoint":[{"name":7}]}"#,
        "104 /observationPoint/0/name",
    ),
    (
        r#"{"observationPoint":[{"name":" p"}]}"#,
        "105 /observationPoint/0/name",
    ),
    (
        r#"{"observationPoint":[{"name":"p","observationDomainId":0,"ifName":["e"]},{"name":"p"}]}"#,
        "106 /observationPoint/1/name",
    ),
    (
        r#"{"observationPoint":[{"name":"p","observationDomainId":4294967296}]}"#,
        "105 /observationPoint/0/observationDomainId",
    ),
    (
        r#"{"observationPoint":[{"name":"p","observationDomainId":1.0}]}"#,
        "105 /observationPoint/0/observationDomainId",
    ),
    (
        r#"{"observationPoint":[{"name":"p","observationDomainId":"1"}]}"#,
        "104 /observationPoint/0/observationDomainId",
    ),
    (
        r#"{"observationPoint":[{"name":"p","observationDomainId":4294967295}]}"#,
        "103 /observationPoint/0",
    ),
    (
        r#"{"observationPoint":[{"name":"p","observationDomainId":0,"ifName":[]}]}"#,
        "103 /observationPoint/0/ifName",
    ),
    (
        r#"{"observationPoint":[{"name":"p","observationDomainId":0,"ifName":["e","f","e"]}]}"#,
        "106 /observationPoint/0/ifName/2",
    ),
    (
        r#"{"observationPoint":[{"name":"p","observationDomainId":0,"ifName":["e"],"direction":"in"}]}"#,
        "105 /observationPoint/0/direction",
    ),
    (
        r#"{"observationPoint":[{"name":"p","observationDomainId":0,"ifName":["e"],"direction":1}]}"#,
        "104 /observationPoint/0/direction",
    ),
    (
        r#"{"observationPoint":[{"name":"p","observationDomainId":0,"ifName":["e"],"direction":"egress","selectionProcess":["s","s"]}]}"#,
        "106 /observationPoint/0/selectionProcess/1",
    ),
    (
        r#"{"observationPoint":[{"name":"p","observationDomainId":0,"ifName":["e"],"selectionProcess":["s"]}]}"#,
        "107 /observationPoint/0/selectionProcess/0",
    ),
    (
        r#"{"observationPoint":[{"name":"p","observationDomainId":0,"ifName":["e"],"selectionProcess":["s"]}],"collectingProcess":[{"name":""}]}"#,
        "105 /collectingProcess/0/name",
    ),
];

const PROCESSES: &[(&str, &str)] = &[
    (
        r#"{"selectionProcess":[{"name":"s","selector":[]}]}"#,
        "103 /selectionProcess/0/selector",
    ),
    (
        r#"{"selectionProcess":[{"name":"s","selector":[0,0,0,0,0,0,0,0,0,0,0,0,0,0,0,0,0]}]}"#,
        "115 /selectionProcess/0/selector",
    ),
    (
        r#"{"selectionProcess":[{"name":"s","selector":[{"name":"a","selectAll":{}}],"cache":"c"}]}"#,
        "107 /selectionProcess/0/cache",
    ),
    (
        r#"{"exportingProcess":[{"name":"e"}]}"#,
        "103 /exportingProcess/0",
    ),
    (
        r#"{"exportingProcess":[{"name":"e","destination":[]}]}"#,
        "103 /exportingProcess/0/destination",
    ),
    (
        r#"{"exportingProcess":[{"name":"e","destination":[{"name":"d"}]}]}"#,
        "103 /exportingProcess/0/destination/0",
    ),
    (
        r#"{"exportingProcess":[{"name":"e","destination":[{"name":"d","udpExporter":1,"sctpExporter":2}]}]}"#,
        "105 /exportingProcess/0/destination/0",
    ),
    (
        r#"{"exportingProcess":[{"name":"e","destination":[{"name":"d","fileWriter":{}}]}]}"#,
        "113 /exportingProcess/0/destination/0/fileWriter",
    ),
    (
        r#"{"exportingProcess":[{"name":"e","destination":[{"name":"d","sctpExporter":[]}],"options":7}]}"#,
        "ok",
    ),
    (
        r#"{"exportingProcess":[{"name":"e","exportMode":"ietf-ipfix-psamp:fallback","destination":[{"name":"d","tcpExporter":{}}]}]}"#,
        "ok",
    ),
    (
        r#"{"exportingProcess":[{"name":"e","exportMode":"once-audit:fallback","destination":[{"name":"d","tcpExporter":{}}]}]}"#,
        "105 /exportingProcess/0/exportMode",
    ),
    (
        r#"{"exportingProcess":[{"name":"e","exportMode":[],"destination":[{"name":"d","tcpExporter":{}}]}]}"#,
        "104 /exportingProcess/0/exportMode",
    ),
    (r#"{"collectingProcess":[7,7]}"#, "104 /collectingProcess/0"),
    (
        r#"{"collectingProcess":[{"name":"c","fileReader":{},"exportingProcess":7}]}"#,
        "113 /collectingProcess/0/fileReader",
    ),
    (
        r#"{"collectingProcess":[{"name":"c","tcpCollector":7,"exportingProcess":["e"]}]}"#,
        "107 /collectingProcess/0/exportingProcess/0",
    ),
    (
        r#"{"collectingProcess":[{"name":"c","aggregation":[]}]}"#,
        "102 /collectingProcess/0/aggregation",
    ),
];

/// A selector after its name.
const METHOD: &Frame<'static> = &Frame {
    kind: Kind::Device,
    before: r#"{"ietf-ipfix-psamp:ipfix":{"selectionProcess":[{"name":"s","selector":[{"name":"a""#,
    behind: "}]}]}}",
    pointer: "/ietf-ipfix-psamp:ipfix/selectionProcess/0/selector/0",
};

const METHODS: &[(&str, &str)] = &[
    (r#""#, "103 "),
    (r#","selectAll":{}"#, "ok"),
    (r#","selectAll":true"#, "ok"),
    (r#","selectAll":false"#, "104 /selectAll"),
    (r#","selectAll":{"a":1}"#, "104 /selectAll"),
    (r#","sampCountBased":{}"#, "108 /sampCountBased"),
    (
        r#","sampTimeBased":{},"filterHash":{}"#,
        "108 /sampTimeBased",
    ),
    (r#","sampRandOutOfN":{}"#, "108 /sampRandOutOfN"),
    (r#","sampUniProb":{},"selectAll":7"#, "108 /sampUniProb"),
    (r#","filterHash":{},"selectAll":[null]"#, "109 /filterHash"),
    (r#","selectAll":[null],"filterMatch":{}"#, "105 "),
    (r#","other":1"#, "102 /other"),
];

/// A filter's members.
const FILTER: &Frame<'static> = &Frame {
    kind: Kind::Device,
    before: r#"{"ietf-ipfix-psamp:ipfix":{"selectionProcess":[{"name":"s","selector":[{"name":"a","filterMatch":{"#,
    behind: "}}]}]}}",
    pointer: "/ietf-ipfix-psamp:ipfix/selectionProcess/0/selector/0/filterMatch",
};

const FILTERS: &[(&str, &str)] = &[
    (r#""value":"6""#, "103 "),
    (
        r#""ieId":4,"ieName":"protocolIdentifier","value":"6""#,
        "105 ",
    ),
    (r#""ieId":4"#, "103 "),
    (r#""ieId":4,"value":6"#, "104 /value"),
    (r#""ieId":4,"value":"06""#, "105 "),
    (r#""ieId":4,"value":"256""#, "105 "),
    (r#""ieId":4,"value":"255""#, "ok"),
    (r#""ieId":8,"value":"10.0.0.1""#, "ok"),
    (r#""ieId":8,"value":"10.0.0.1/8""#, "105 "),
    (r#""ieId":44,"value":"10.0.0.1/8""#, "ok"),
    (r#""ieId":44,"value":"10.0.0.1/0""#, "105 "),
    (r#""ieId":44,"value":"10.0.0.1/33""#, "105 "),
    (r#""ieId":1,"value":"1""#, "105 "),
    (r#""ieId":4,"ieEnterpriseNumber":1,"value":"6""#, "105 "),
    (r#""ieId":4,"ieEnterpriseNumber":0,"value":"6""#, "ok"),
    (
        r#""ieId":4,"ieEnterpriseNumber":-1,"value":"6""#,
        "105 /ieEnterpriseNumber",
    ),
    (r#""ieName":4,"value":"6""#, "104 /ieName"),
    (r#""ieName":"protocolidentifier","value":"6""#, "105 "),
    (r#""ieId":0,"value":7"#, "105 /ieId"),
];

/// An aggregation after its name.
const AGGREGATION: &Frame<'static> = &Frame {
    kind: Kind::Device,
    before: r#"{"ietf-ipfix-psamp:ipfix":{"collectingProcess":[{"name":"c","once-audit:aggregation":[{"name":"g""#,
    behind: "}]}]}}",
    pointer: "/ietf-ipfix-psamp:ipfix/collectingProcess/0/once-audit:aggregation/0",
};

const AGGREGATIONS: &[(&str, &str)] = &[
    (r#""#, "ok"),
    (r#","key":{}"#, "104 /key"),
    (r#","key":[{"ieId":8},{"ieId":45,"prefixLength":16}]"#, "ok"),
    (
        r#","key":[{"ieId":8},{"ieId":44,"prefixLength":16},{}]"#,
        "105 /key/1",
    ),
    (r#","key":[{"ieId":4,"prefixLength":8}]"#, "105 /key/0"),
    (r#","key":[{"ieId":1}]"#, "105 /key/0"),
    (r#","key":[{"ieId":44}]"#, "103 /key/0"),
    (r#","key":[{}]"#, "103 /key/0"),
    (r#","key":[{"ieId":44,"ieName":7}]"#, "105 /key/0"),
    (
        r#","key":[{"ieId":44,"prefixLength":33}]"#,
        "105 /key/0/prefixLength",
    ),
    (
        r#","key":[{"ieId":44,"prefixLength":"8"}]"#,
        "104 /key/0/prefixLength",
    ),
    (
        r#","key":[{"ieId":44,"ieEnterpriseNumber":0}]"#,
        "102 /key/0/ieEnterpriseNumber",
    ),
    (
        r#","match":[{"ieId":4,"value":"6"},{"ieId":4,"value":"17"}]"#,
        "ok",
    ),
    (r#","match":[{"ieId":4,"value":"x"}]"#, "105 /match/0"),
    (r#","match":[{"ieId":4}]"#, "103 /match/0"),
    (r#","exportingProcess":["e"]"#, "107 /exportingProcess/0"),
];

#[test]
fn refuses_documents(rt: HostRuntime) {
    look_at_rows(&rt, rt.alloc(), DOCUMENT, DOCUMENTS);
}

#[test]
fn refuses_observation_points(rt: HostRuntime) {
    look_at_rows(&rt, rt.alloc(), LISTS, POINTS);
}

#[test]
fn refuses_processes(rt: HostRuntime) {
    look_at_rows(&rt, rt.alloc(), LISTS, PROCESSES);
}

#[test]
fn refuses_methods(rt: HostRuntime) {
    look_at_rows(&rt, rt.alloc(), METHOD, METHODS);
}

#[test]
fn refuses_filters(rt: HostRuntime) {
    look_at_rows(&rt, rt.alloc(), FILTER, FILTERS);
}

#[test]
fn refuses_aggregations(rt: HostRuntime) {
    look_at_rows(&rt, rt.alloc(), AGGREGATION, AGGREGATIONS);
}
