//! Documents of a meter at one interface, which exports to the collector of the report; and the outcomes of commands.
use fx_audit::Answer;
use fx_base::Fault;
use fx_layout::Seed;

/// The network.
pub(crate) const NETWORK: &str = r#"{"devices":[{"name":"m1","config":{"ietf-ipfix-psamp:ipfix":{
"observationPoint":[{"name":"op","observationDomainId":0,"ifName":["eth0"],"selectionProcess":["sp"]}],
"selectionProcess":[{"name":"sp","selector":[{"name":"a","selectAll":[null]}],"cache":"ca"}],
"cache":[{"name":"ca","timeoutCache":{"cacheLayout":{"cacheField":[
{"name":"s","ieName":"sourceIPv4Address","isFlowKey":[null]},
{"name":"o","ieId":1},{"name":"p","ieId":2}]}},"exportingProcess":["ex"]}],
"exportingProcess":[{"name":"ex","destination":[{"name":"d","tcpExporter":{}}]}]}}},
{"name":"c1","config":{"ietf-ipfix-psamp:ipfix":{"collectingProcess":[{"name":"cp"}]}}}],
"links":[{"device":"m1","exportingProcess":"ex","destination":"d","toDevice":"c1","toProcess":"cp"}],
"report":{"device":"c1","collectingProcess":"cp","key":[{"ieName":"sourceIPv4Address"}]}}
"#;

/// The traffic: one class, whose packets enter the meter.
pub(crate) const TRAFFIC: &str =
    r#"{"classes":[{"name":"web","region":{"sourceIPv4Address":"10.0.0.0/8"},"paths":[[{"device":"m1","interface":"eth0","direction":"ingress"}]]}]}
"#;

/// A run of two packets, which are counted in one flow record, which arrives.
pub(crate) const RUN: &[u8] = b"once-run 1
packet 1 1 10.0.0.1 192.0.2.1 6 1000 80 0 18446744073709551614
packet 1 1 10.0.0.1 192.0.2.1 6 1000 80 0 1
cross 1 1 n
cross 2 1 1
expire cache 1 1 1
arrive 1 1
end
";

/// What is collected from that run.
pub(crate) const TOTALS: &[u8] =
    b"keys 1\n10.0.0.1 packets 2 octets 18446744073709551615\nunassigned 0\ncomplete yes\n";

/// A certificate that the packets of the class are counted exactly once.
pub(crate) const CERTIFICATE: &[u8] = b"once-certificate 1\nclass 1 path 1\nL 1 1 1\nend\n";

/// Returns the seed with which stores and totals hash keys here.
pub(crate) fn seed() -> Seed {
    Seed::new(1, 2)
}

/// Returns the outcome of a command: its answer, or the number of its fault.
pub(crate) fn ending(outcome: Result<Answer, Fault>) -> Result<Answer, u16> {
    match outcome {
        Ok(answer) => Ok(answer),
        Err(fault) => Err(fault.number),
    }
}
