//! What is refused in caches and their fields, and the places.
use crate::config_refusals::LISTS;
use crate::documents::{Frame, Kind, look_at_rows};

const CACHES: &[(&str, &str)] = &[
    (r#"{"cache":[{"name":"c"}]}"#, "103 /cache/0"),
    (
        r#"{"cache":[{"name":"c","immediateCache":{},"naturalCache":{}}]}"#,
        "105 /cache/0",
    ),
    (
        r#"{"cache":[{"name":"c","immediateCache":{}}]}"#,
        "103 /cache/0/immediateCache",
    ),
    (
        r#"{"cache":[{"name":"c","permanentCache":{"exportInterval":7,"cacheLayout":{"cacheField":[{"name":"o","ieId":1},{"name":"p","ieId":2}]}}}]}"#,
        "ok",
    ),
    (
        r#"{"cache":[{"name":"c","naturalCache":{"maxFlows":4294967296,"cacheLayout":{"cacheField":[{"name":"o","ieId":1},{"name":"p","ieId":2}]}}}]}"#,
        "105 /cache/0/naturalCache/maxFlows",
    ),
    (
        r#"{"cache":[{"name":"c","timeoutCache":{"activeTimeout":"1","cacheLayout":{"cacheField":[{"name":"o","ieId":1},{"name":"p","ieId":2}]}}}]}"#,
        "104 /cache/0/timeoutCache/activeTimeout",
    ),
    (
        r#"{"cache":[{"name":"c","timeoutCache":{"idleTimeout":1.5,"cacheLayout":{"cacheField":[{"name":"o","ieId":1},{"name":"p","ieId":2}]}}}]}"#,
        "105 /cache/0/timeoutCache/idleTimeout",
    ),
    (
        r#"{"cache":[{"name":"c","timeoutCache":{"cacheLayout":{"cacheField":[{"name":"o","ieId":1},{"name":"p","ieId":2}]}},"exportingProcess":["e"]}]}"#,
        "107 /cache/0/exportingProcess/0",
    ),
    (
        r#"{"cache":[{"name":"c","immediateCache":{"cacheLayout":{"cacheField":[{"name":"o","ieId":1,"isFlowKey":[null]},{"name":"p","ieId":2},{"name":"s","ieId":8}]}}}]}"#,
        "ok",
    ),
    (
        r#"{"cache":[{"name":"c","immediateCache":{"cacheLayout":{"cacheField":[{"name":"s","ieId":8,"ieLength":2}]}}}]}"#,
        "105 /cache/0/immediateCache/cacheLayout/cacheField/0/ieLength",
    ),
    (
        r#"{"cache":[{"name":"c","immediateCache":{"cacheLayout":{"cacheField":[{"name":"s","ieId":8,"isFlowKey":1}]}}}]}"#,
        "104 /cache/0/immediateCache/cacheLayout/cacheField/0/isFlowKey",
    ),
];

/// The fields of a cache, where pointers begin at its container `cacheLayout`.
const LAYOUT: &Frame<'static> = &Frame {
    kind: Kind::Device,
    before: r#"{"ietf-ipfix-psamp:ipfix":{"cache":[{"name":"c","timeoutCache":{"cacheLayout":{"cacheField":["#,
    behind: "]}}}]}}",
    pointer: "/ietf-ipfix-psamp:ipfix/cache/0/timeoutCache/cacheLayout",
};

const FIELDS: &[(&str, &str)] = &[
    (
        r#"{"name":"o","ieId":1},{"name":"p","ieName":"packetDeltaCount"}"#,
        "ok",
    ),
    (r#"{"name":"o","ieId":1}"#, "114 "),
    (r#"{"name":"p","ieId":2}"#, "114 "),
    (r#""#, "103 /cacheField"),
    (
        r#"0,0,0,0,0,0,0,0,0,0,0,0,0,0,0,0,0,0,0,0,0,0,0,0,0,0,0,0,0,0,0,0,0"#,
        "115 /cacheField",
    ),
    (
        r#"{"name":"o","ieId":1},{"name":"o","ieId":true}"#,
        "106 /cacheField/1/name",
    ),
    (r#"{"name":"o"}"#, "103 /cacheField/0"),
    (r#"{"name":"o","ieId":0,"ieName":7}"#, "105 /cacheField/0"),
    (r#"{"name":"o","ieId":32768}"#, "105 /cacheField/0/ieId"),
    (
        r#"{"name":"o","ieId":1,"isFlowKey":{}}"#,
        "104 /cacheField/0/isFlowKey",
    ),
    (
        r#"{"name":"o","ieId":85,"ieLength":4,"isFlowKey":[null]}"#,
        "111 /cacheField/0",
    ),
    (
        r#"{"name":"o","ieName":"packetTotalCount"}"#,
        "111 /cacheField/0",
    ),
    (
        r#"{"name":"o","ieId":1,"isFlowKey":true}"#,
        "112 /cacheField/0",
    ),
    (
        r#"{"name":"o","ieName":"nothing","isFlowKey":true}"#,
        "112 /cacheField/0",
    ),
    (
        r#"{"name":"o","ieId":44,"isFlowKey":true}"#,
        "112 /cacheField/0",
    ),
    (
        r#"{"name":"o","ieId":8,"ieEnterpriseNumber":9,"isFlowKey":true}"#,
        "112 /cacheField/0",
    ),
    (
        r#"{"name":"o","ieId":1,"ieLength":4}"#,
        "110 /cacheField/0/ieLength",
    ),
    (
        r#"{"name":"o","ieId":85,"ieLength":0}"#,
        "105 /cacheField/0/ieLength",
    ),
    (
        r#"{"name":"o","ieId":1,"ieLength":4,"ieEnterpriseNumber":9}"#,
        "114 ",
    ),
    (
        r#"{"name":"s","ieId":8,"ieLength":8,"isFlowKey":true}"#,
        "105 /cacheField/0/ieLength",
    ),
    (
        r#"{"name":"s","ieId":8,"ieLength":8},{"name":"o","ieId":1},{"name":"p","ieId":2}"#,
        "ok",
    ),
];

#[test]
fn refuses_caches(rt: HostRuntime) {
    look_at_rows(&rt, rt.alloc(), LISTS, CACHES);
}

#[test]
fn refuses_fields(rt: HostRuntime) {
    look_at_rows(&rt, rt.alloc(), LAYOUT, FIELDS);
}
