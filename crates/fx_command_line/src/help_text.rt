//! The help texts: what clap doesn't say by itself about the program and each command.

/// The version that the program prints, and the toolchain that it is proved with.
pub const VERSION: &str = "1.0.0 (rattle-kit-13b)";

/// The text after the list of commands.
pub const PROGRAM: &str = "\
The way through:
  once lint NETWORK                    has the network document a fault?
  once audit NETWORK TRAFFIC > ANSWER  is every packet counted exactly once? A certificate, or a run
                                       that shows a wrong total
  once check NETWORK TRAFFIC ANSWER    does this certificate show it? (whoever made it needn't be
                                       trusted)
  once join NETWORK TRAFFIC PARTS      do the certificates of parts certify the whole network?
  once confirm NETWORK TRAFFIC ANSWER  does this run show a wrong total? With what is counted and
                                       what should be
  once draw NETWORK TRAFFIC ANSWER     all of it as a picture (Graphviz)

NETWORK is a JSON document of devices, links and the report, TRAFFIC one of the classes of packets
and their paths: `once help lint` shows both whole. `once help COMMAND` says what a command's files
are, with an example. `once explain NUMBER` says what a refusal means.

Without arguments, a bundle (a command and its files in one text) is read from standard input: a
line `audit`, `check`, `confirm` or `replay`, then its texts in their order, each with a line feed
at its end and followed by a line `%%`:

  (echo audit; cat network.json; echo; echo %%; cat traffic.json; echo; echo %%) | once

--explain, with any command or a bundle: prints after the answer, in sentences, what it means and
what to do. Nothing is printed after a graph, nor after what `explain` prints about a number.
--format json, with any command or a bundle: prints one JSON object instead, in one line, with the
answer, its text in \"output\", totals by key, and these sentences; the exit status is the same.
--progress, with audit, collect and run: how far it has come, on standard error.
It is printed at most once a second.

Exit status:
  0  the answer is on standard output
  1  the answer is no: `no NUMBER PLACE` of check, confirm and join, a refutation of audit,
     `unknown number` of explain
  2  a text is refused: `refused NUMBER PLACE`
  3  `unknown 601`: an audit found neither within its limits
  4  out of memory: `memory 900`
  5  a read or a write failed, or a file can't be opened: `device 901`, `device 902`
  6  the arguments don't parse";

/// The text after the help of `audit`.
pub const AUDIT: &str = "\
Example:
  once audit network.json traffic.json > answer.txt

Files:
  NETWORK  JSON: \"devices\" with their configurations (RFC 6728 in the JSON of RFC 7951), \"links\",
           \"report\"; an example of both documents: `once help lint`
  TRAFFIC  JSON: \"classes\", each with a \"name\", a \"region\" of packet fields and \"paths\" of crossings

Prints a certificate (status 0): lines that `once check` takes; after it every complete run counts
each packet exactly once. Or a refutation (status 1): a run of one packet that `once confirm` reads,
which ends in a wrong total. Or `unknown 601` (status 3): neither was found within the limits; raise
--limit, or split the traffic into several declarations. A document that is refused:
`refused NUMBER PLACE` (status 2), PLACE a JSON Pointer (RFC 6901), in which entries of lists count
from 0. What the lines of both answers say: `once help check`, `once help confirm`.

--explain adds sentences: for a refutation, how the packet is counted, what to change, and what each
of its steps does, by name; then what is doubtful in the documents.
--progress prints on standard error, at most once a second, how many lines of a certificate were
found.";

/// The text after the help of `check`.
pub const CHECK: &str = "\
Example:
  once audit network.json traffic.json > certificate.txt
  once check network.json traffic.json certificate.txt

Files:
  NETWORK      JSON: \"devices\", \"links\", \"report\"; an example of both documents: `once help lint`
  TRAFFIC      JSON: \"classes\" with regions and paths
  CERTIFICATE  lines, as `once audit` prints them

Lines of a certificate:
  once-certificate 1        the first line; once-certificate 2 where a class is exempt
  class CLASS path PATH     for each class, in order, and each of its paths, in order; a tree
                            follows, which is about the class's region
  S AXIS AT                 a split of the region: the tree of the values below AT follows, and then
                            the tree of the others
  L CROSSING POINT PROCESS  a leaf: all packets of the region are counted once, when they make this
                            crossing, at this observation point, by this selection process
  N                         a leaf: none of the packets of the region is counted; of classes that
                            are exempt, which have no other leaves
  end                       the last line

Numbers count from 1: CLASS in \"classes\", PATH in the class's \"paths\", CROSSING in the path, POINT
in the list \"observationPoint\" of the crossing's device, PROCESS among the names in that point's
\"selectionProcess\". AXIS is source, destination, protocol, sport, dport, tos, version, source6 or
destination6; AT is a number in decimal digits, also of addresses: 10.128.0.0 is 176160768.

Example of a certificate:
  once-certificate 1
  class 1 path 1
  S source 176160768
  L 1 1 1
  L 1 1 1
  end

It is accepted for the first network in `once help lint` and the traffic through it, where a leaf
`L 1 1 1` without the split is enough.

Prints `yes` (status 0) only where every complete run counts each packet exactly once; or
`no NUMBER line N` (status 1) with what is wrong first: 401 to 405, 411, 412, 414 are about the
text, 406 to 410, 413, 415 about the network. A document that is refused: `refused NUMBER PLACE`
(status 2).

--explain adds sentences about the line: its class, path and region by name, and what to do.";

/// The text after the help of `confirm`.
pub const CONFIRM: &str = "\
Example:
  once audit network.json traffic.json > refutation.txt
  once confirm network.json traffic.json refutation.txt

Files:
  NETWORK     JSON: \"devices\", \"links\", \"report\"; an example of both documents: `once help lint`
  TRAFFIC     JSON: \"classes\" with regions and paths
  REFUTATION  lines, as `once audit` prints them: `once-refutation 2`, one `packet` line, at most
              1,000,000 steps (`cross`, `expire`, `arrive`), `end`; packet and steps are written as
              in `once help replay`, which says what their words mean

Example of a refutation:
  once-refutation 2
  packet 1 1 10.0.0.1 192.0.2.1 6 49152 443 0 4 0:0:0:0:0:0:0:0 0:0:0:0:0:0:0:0 1500
  cross 1 1 n
  expire cache 1 1 1
  end

It is confirmed for the first network in `once help lint` with \"links\": [] instead of its link, and
the traffic through it: the record is lost.

Prints `refuted` (status 0), then after the line `run` what the collector counts in that run, and
after the line `plain` what it should; or `no NUMBER PLACE` (status 1), 501 to 505. A document that
is refused: `refused NUMBER PLACE` (status 2).

--explain adds sentences about the run: how the packet is counted and what to change; then step by
step, by name, where the packet is metered, or which observation points pass it over and why.";

/// The text after the help of `replay`.
pub const REPLAY: &str = "\
Example:
  once replay network.json traffic.json run.txt

Files:
  NETWORK  JSON: \"devices\", \"links\", \"report\"; an example of both documents: `once help lint`
  TRAFFIC  JSON: \"classes\" with regions and paths
  RUN      lines: the first, any number of packets, any number of steps, the last

Forms of the lines:

  once-run 2
  packet CLASS PATH SOURCE DESTINATION PROTOCOL SPORT DPORT TOS VERSION SOURCE6 DESTINATION6 OCTETS
  cross PACKET CROSSING CHOICES
  expire cache DEVICE CACHE POSITION CHOICES
  expire aggregation DEVICE PROCESS AGGREGATION POSITION CHOICES
  arrive LINK POSITION CHOICES
  end

A packet makes a crossing of its path; a record leaves a cache or an aggregation; a record that is
on a link reaches its collecting process. What the words mean; things are counted from 1:

  CLASS, PATH                    in \"classes\", and in the class's \"paths\"
  SOURCE, DESTINATION            as 10.0.0.1; 0.0.0.0 of packets of IPv6
  PROTOCOL, SPORT, DPORT, TOS    decimal numbers, as 6 for TCP
  VERSION                        4 of packets of IPv4, 6 of those of IPv6
  SOURCE6, DESTINATION6          eight groups, as 2001:db8:0:0:0:0:0:1, never `::`; 0:0:0:0:0:0:0:0
                                 of packets of IPv4
  OCTETS                         what the packet adds to the octets that are counted
  PACKET, CROSSING               among the lines `packet`, and in the packet's path
  DEVICE, CACHE                  in \"devices\", and in the device's list \"cache\"
  PROCESS, AGGREGATION           in the device's list \"collectingProcess\", and in its
                                 \"once-audit:aggregation\"
  LINK                           in \"links\"
  POSITION                       of the record among those that the cache or the aggregation holds,
                                 or that are on the link, in the order in which they came; if one
                                 leaves, those after it move up
  CHOICES                        no word or several, one for each choice that the step leaves open,
                                 as listed below

CHOICES of a step:
  cross    for each selection process with a cache that meters the packet there, in the order of the
           observation points: `n` for a new record, or the position of a record with the same key
  expire   for each exporting process that isn't parallel and that the record goes to: the number of
           one of its destinations
  arrive   for each exporting process that isn't parallel and forwards the record: the number of one
           of its destinations; then for each aggregation that takes the record in: `n`, or the
           position of a record with the same key

Example of a run:
  once-run 2
  packet 1 1 10.0.0.1 192.0.2.1 6 49152 443 0 4 0:0:0:0:0:0:0:0 0:0:0:0:0:0:0:0 1500
  packet 1 1 10.0.0.1 192.0.2.7 17 5353 53 0 4 0:0:0:0:0:0:0:0 0:0:0:0:0:0:0:0 80
  cross 1 1 n
  cross 2 1 1
  expire cache 1 1 1
  arrive 1 1
  end

It is a run of the first network in `once help lint` and the traffic through it. The second packet
joins the record of the first, which has the same source. Behind `once-run 1` packets are of IPv4,
and their lines lack VERSION, SOURCE6 and DESTINATION6.

Prints the collector's totals at the run's end (status 0): `keys N`, a line for each key,
`unassigned N`, and `complete yes` or `complete no`. A text that is refused: `refused NUMBER PLACE`
(status 2); 851 to 853 are steps that can't be made, 854 to 856 lines.

--explain says which step it was, by name, and of a run that isn't complete what it leaves undone.";

/// The text after the help of `collect`.
pub const COLLECT: &str = "\
Examples:
  once collect network.json stream.ipfix
  nc -l -p 4739 | once collect network.json /dev/stdin

Files:
  NETWORK  JSON: the whole document, of which the report's key alone counts here; an example:
           `once help lint`
  STREAM   octets: the IPFIX messages (RFC 7011) of one exporter's connection, one after another,
           with nothing between

Prints the totals (status 0): `keys N`, a line for each key, `unassigned N`, `gaps N` (messages
whose sequence number isn't the next one), `skipped N` (records that lack a counter). A stream that
is refused: `refused NUMBER octet N` (status 2), 611 to 620, at the first octet of the message,
counted from 0. Counters must have 8 octets (618).

--explain says of a refused message which it is and what is there: its set, template, field or
record; of totals which messages leave a gap, which templates lack a field of the key or a counter
and how much they count, which records are of both directions of an observation point or of sampled
packets, and when the first and the last message were exported.
--progress prints on standard error, at most once a second, how many octets of the stream were read.";

/// The text after the help of `run`.
pub const RUN: &str = "\
Example:
  once run network.json traffic.json capture.pcap schedule.txt --links link

Files:
  NETWORK   JSON: \"devices\", \"links\", \"report\"; an example of both documents: `once help lint`
  TRAFFIC   JSON: \"classes\" with regions and paths; each packet of the capture has to be in one
  CAPTURE   octets: classic pcap of link type 1 (Ethernet) or 101 (IP)
  SCHEDULE  lines, or none (as /dev/null); what is left at its end is read, expired and carried to
            the collector

Lines of a schedule:
  next                             the next packet is read; it is of the first class that holds it,
                                   with path 1
  next CLASS PATH                  the next packet is read, of this class and with this path
  expire DEVICE CACHE              the record of the least key leaves a cache and is exported
  emit DEVICE PROCESS AGGREGATION  the record of the least key leaves an aggregation and is exported
  carry LINK OCTETS                the next 1 to 65535 octets that are on a link reach its
                                   collecting process
  use DEVICE EXPORTER DESTINATION  an exporting process that isn't parallel sends to this
                                   destination from now on, and before to its first; one that is
                                   parallel goes on sending to all

Numbers count from 1: CLASS in \"classes\", PATH in the class's \"paths\", DEVICE in \"devices\", LINK in
\"links\"; in the device CACHE in the list \"cache\", PROCESS in \"collectingProcess\", EXPORTER in
\"exportingProcess\"; AGGREGATION in the process's \"once-audit:aggregation\", DESTINATION in the
exporter's \"destination\".

Example of a schedule:
  next
  next 1 1
  expire 1 1
  carry 1 60

It goes with the first network in `once help lint` and the traffic through it, and each capture of
two or more packets of that traffic; 60 octets are the message with the first record and its
template.

Prints the totals (status 0): `keys N`, a line for each key, `unassigned N`,
`skipped other N malformed N` (frames that are no packets). With --links the IPFIX octets of link 1
go to the file PREFIX1, and so on; files of these names are written over, but where a file above is
given by that very name it ends with `device 902`. A text that is refused: `refused NUMBER PLACE`
(status 2), 701 to 704 of the capture, 801 to 804 of the schedule.

--explain says of a refused line what it is about: of 802 what isn't there, of 803 and 804 which
packet, and which of its fields are outside of which class.
--progress prints on standard error, at most once a second, how many octets of the capture were
read.";

/// The text after the help of `lint`.
pub const LINT: &str = "\
Example:
  once lint network.json traffic.json

Files:
  NETWORK  JSON: \"devices\" with their configurations (RFC 6728 in the JSON of RFC 7951), \"links\",
           \"report\"
  TRAFFIC  JSON: \"classes\" with regions and paths; may be left out

A network of one meter and one collector, to begin with:

  {\"devices\": [
     {\"name\": \"router\", \"config\": {\"ietf-ipfix-psamp:ipfix\": {
        \"observationPoint\": [
           {\"name\": \"uplink\", \"observationDomainId\": 1, \"ifName\": [\"eth0\"],
            \"direction\": \"ingress\", \"selectionProcess\": [\"all\"]}],
        \"selectionProcess\": [
           {\"name\": \"all\", \"selector\": [{\"name\": \"each\", \"selectAll\": [null]}], \"cache\": \"flows\"}],
        \"cache\": [
           {\"name\": \"flows\", \"exportingProcess\": [\"export\"],
            \"timeoutCache\": {\"cacheLayout\": {\"cacheField\": [
               {\"name\": \"source\", \"ieName\": \"sourceIPv4Address\", \"isFlowKey\": [null]},
               {\"name\": \"octets\", \"ieName\": \"octetDeltaCount\"},
               {\"name\": \"packets\", \"ieName\": \"packetDeltaCount\"}]}}}],
        \"exportingProcess\": [
           {\"name\": \"export\", \"exportMode\": \"parallel\",
            \"destination\": [{\"name\": \"billing\", \"tcpExporter\": {}}]}]}}},
     {\"name\": \"host\", \"config\": {\"ietf-ipfix-psamp:ipfix\": {
        \"collectingProcess\": [{\"name\": \"billing\"}]}}}],
   \"links\": [
     {\"device\": \"router\", \"exportingProcess\": \"export\", \"destination\": \"billing\",
      \"toDevice\": \"host\", \"toProcess\": \"billing\"}],
   \"report\": {\"device\": \"host\", \"collectingProcess\": \"billing\",
              \"key\": [{\"ieName\": \"sourceIPv4Address\"}]}}

Traffic through it:

  {\"classes\": [
     {\"name\": \"customers\", \"region\": {\"sourceIPv4Address\": \"10.0.0.0/8\"},
      \"paths\": [[{\"device\": \"router\", \"interface\": \"eth0\", \"direction\": \"ingress\"}]]}]}

A network with the other parts, filters, two destinations of which any one is taken, and a mediator
that adds up by prefix:

  {\"devices\": [
     {\"name\": \"router\", \"config\": {\"ietf-ipfix-psamp:ipfix\": {
        \"observationPoint\": [
           {\"name\": \"inside\", \"observationDomainId\": 1, \"ifName\": [\"eth0\", \"eth1\"],
            \"direction\": \"both\", \"selectionProcess\": [\"web\"]}],
        \"selectionProcess\": [
           {\"name\": \"web\", \"cache\": \"flows\", \"selector\": [
              {\"name\": \"net\", \"filterMatch\": {\"ieName\": \"sourceIPv4Prefix\", \"value\": \"10.0.0.0/9\"}},
              {\"name\": \"port\", \"filterMatch\": {\"ieId\": 11, \"value\": \"443\"}}]}],
        \"cache\": [
           {\"name\": \"flows\", \"exportingProcess\": [\"export\"],
            \"naturalCache\": {\"maxFlows\": 1000, \"cacheLayout\": {\"cacheField\": [
               {\"name\": \"source\", \"ieId\": 8, \"isFlowKey\": [null]},
               {\"name\": \"protocol\", \"ieName\": \"protocolIdentifier\", \"isFlowKey\": [null]},
               {\"name\": \"octets\", \"ieId\": 1, \"ieLength\": 8}, {\"name\": \"packets\", \"ieId\": 2}]}}}],
        \"exportingProcess\": [
           {\"name\": \"export\", \"exportMode\": \"fallback\", \"destination\": [
              {\"name\": \"first\", \"tcpExporter\": {}}, {\"name\": \"second\", \"udpExporter\": {}}]}]}}},
     {\"name\": \"mediator\", \"config\": {\"ietf-ipfix-psamp:ipfix\": {
        \"collectingProcess\": [
           {\"name\": \"routers\", \"once-audit:aggregation\": [
              {\"name\": \"by network\", \"key\": [{\"ieName\": \"sourceIPv4Prefix\", \"prefixLength\": 24}],
               \"match\": [{\"ieName\": \"protocolIdentifier\", \"value\": \"6\"}],
               \"exportingProcess\": [\"forward\"]}]}],
        \"exportingProcess\": [
           {\"name\": \"forward\", \"destination\": [{\"name\": \"billing\", \"sctpExporter\": {}}]}]}}},
     {\"name\": \"host\", \"config\": {\"ietf-ipfix-psamp:ipfix\": {
        \"collectingProcess\": [{\"name\": \"billing\"}]}}}],
   \"links\": [
     {\"device\": \"router\", \"exportingProcess\": \"export\", \"destination\": \"first\",
      \"toDevice\": \"mediator\", \"toProcess\": \"routers\"},
     {\"device\": \"router\", \"exportingProcess\": \"export\", \"destination\": \"second\",
      \"toDevice\": \"mediator\", \"toProcess\": \"routers\"},
     {\"device\": \"mediator\", \"exportingProcess\": \"forward\", \"destination\": \"billing\",
      \"toDevice\": \"host\", \"toProcess\": \"billing\"}],
   \"report\": {\"device\": \"host\", \"collectingProcess\": \"billing\",
              \"key\": [{\"ieName\": \"sourceIPv4Prefix\", \"prefixLength\": 24}]}}

Traffic through that one:

  {\"classes\": [
     {\"name\": \"web\", \"region\": {\"sourceIPv4Address\": \"10.0.0.0/10\", \"protocolIdentifier\": \"6\",
                                \"destinationTransportPort\": \"443\"},
      \"paths\": [[{\"device\": \"router\", \"interface\": \"eth0\", \"direction\": \"ingress\"}],
                [{\"device\": \"router\", \"interface\": \"eth1\", \"direction\": \"ingress\"}]]},
     {\"name\": \"management\", \"region\": {\"sourceIPv4Address\": \"192.0.2.1-192.0.2.9\"},
      \"exempt\": [null],
      \"paths\": [[{\"device\": \"router\", \"interface\": \"eth0\", \"direction\": \"ingress\"}], []]}]}

Members and their values:
  name                    1 to 255 octets, without white space at either end, once in its list
  direction               \"ingress\", \"egress\" or \"both\", which it is where it is left out; of a
                          crossing \"ingress\" or \"egress\"
  selector                one or more, all of which a packet has to pass: \"selectAll\": [null], or
                          \"filterMatch\" with one value of a field of packets, or ADDRESS/N of a
                          prefix
  cache                   has one of \"immediateCache\", \"timeoutCache\", \"naturalCache\" and
                          \"permanentCache\", each with \"cacheLayout\"; \"maxFlows\", \"activeTimeout\",
                          \"idleTimeout\" and \"exportInterval\" may be there too: of these
                          `once run` heeds \"maxFlows\", and an audit none
  cacheField              \"isFlowKey\": [null] for a field of packets that distinguishes records (in
                          an immediateCache each field of packets does); octetDeltaCount and
                          packetDeltaCount must be there, 8 octets long; other elements may be, but
                          octetTotalCount and packetTotalCount, and distinguish no records
  exportMode              \"parallel\" (to all destinations), which it is where it is left out;
                          \"loadBalancing\" or \"fallback\" (to any one of them)
  destination             one of \"tcpExporter\", \"sctpExporter\" and \"udpExporter\"; a link leads from
                          it to a collecting process, and without a link what is sent there is lost
  collectingProcess       with \"exportingProcess\": [\"NAME\"] it forwards each record as it is
  once-audit:aggregation  of a collecting process: adds up by \"key\"; \"match\", whose entries are as
                          \"filterMatch\", may be left out. It takes the records from whose key its
                          own and its matches can be read, where the matches hold
  key                     of a report or an aggregation: fields of packets, and prefixes with
                          \"prefixLength\", which is 1 to 32, of IPv6 to 128; [] for one total
  region                  for each field of packets a value, LOW-HIGH or, of addresses, ADDRESS/N;
                          fields that aren't named have all their values
  paths                   one or more, each a list of crossings in their order; [] passes no meter
  exempt                  [null] for a class whose packets must never be counted

Fields of packets, as \"ieName\" or, by the number, as \"ieId\", and their values, which are texts:

  sourceIPv4Address, destinationIPv4Address        8, 12: as \"10.0.0.1\"
  protocolIdentifier                               4: \"0\" to \"255\", as \"6\" for TCP
  sourceTransportPort, destinationTransportPort    7, 11: \"0\" to \"65535\"
  ipClassOfService                                 5: \"0\" to \"255\"
  ipVersion                                        60: \"4\" or \"6\" of packets
  sourceIPv6Address, destinationIPv6Address        27, 28: as \"2001:db8::1\"

Other elements:
  sourceIPv4Prefix, destinationIPv4Prefix          44, 45: in filters, matches and keys; in filters
                                                   and matches as \"10.0.0.0/9\"
  sourceIPv6Prefix, destinationIPv6Prefix          170, 169: also, as \"2001:db8::/32\"
  octetDeltaCount, packetDeltaCount                1, 2: in cacheField

Prints `ok` (status 0) where every command would take the document; else its first fault,
`refused NUMBER PLACE` (status 2), PLACE a JSON Pointer (RFC 6901), in which entries of lists count
from 0.

--explain explains the fault in sentences, and of accepted documents what is doubtful in them: a
member that occurs twice, members that aren't read, a destination without a link, a cache that
nothing feeds, a path of which no observation point sees a crossing, an interface that is nearly
the name of an observed one. Exempt classes and the number of other unobserved crossings follow.";

/// The text after the help of `draw`.
pub const DRAW: &str = "\
Examples:
  once draw network.json | dot -Tsvg > network.svg
  once draw network.json traffic.json certificate.txt | dot -Tsvg > counted.svg
  once draw network.json traffic.json refutation.txt --class web | dot -Tsvg > web.svg

Files:
  NETWORK  JSON: \"devices\", \"links\", \"report\"; an example of both documents: `once help lint`
  TRAFFIC  JSON: \"classes\" with regions and paths; may be left out
  ANSWER   what `once audit` printed of both, a certificate or a refutation; may be left out

Prints a graph in the DOT language (status 0), of which Graphviz's `dot` makes a picture: a box for
each device, with its observation points, selection processes, caches, collecting and exporting
processes; in red what is lost, with two lines around the report. With TRAFFIC in blue the packets
of each path (of those of one class with --class), and what observes them; three or more devices
are one box if they differ in names and interfaces alone. With a certificate in green where packets
are counted and how their records reach the report; with a refutation in orange the steps of its
run, and in red its totals. A text that is refused: `refused NUMBER PLACE` (status 2), also a
certificate that `once check` and a refutation that `once confirm` refuses; if no class has the
name, `refused 107 /classes`. Where dot says `syntax error near 'refused'` or `near 'device'`, run
`once draw .. --explain` without dot.

--explain explains what is refused in sentences.";

/// The text after the help of `sum`.
pub const SUM: &str = "\
Example:
  mkdir totals refused
  for s in streams/*; do
    t=\"totals/${s##*/}\"
    once collect network.json \"$s\" > \"$t\" || mv \"$t\" refused/
  done
  cat totals/* | once sum network.json /dev/stdin

Files:
  NETWORK  JSON: the whole document, of which the report's key alone counts here; an example:
           `once help lint`
  TOTALS   lines: one or more totals as `once collect`, `once run` or `once replay` print them, one
           directly after another, of networks with this report

Lines of totals, in this order:
  keys N                         how many lines of keys follow
  KEY packets P octets O         keys ascend, and none occurs twice
  unassigned N                   records without the report's key
  complete yes                   or complete no; of a replay
  skipped other N malformed N    of a run over a capture
  gaps N                         of a collection, with the next line
  skipped N                      of a collection

The last four may be missing. KEY has the values of the report's fields with single spaces between
them, in the order in which `once help lint` lists the fields, a prefix as 10.0.0.0/24, addresses of
IPv6 in eight groups; it is `all` where the report's key has no field.

Example of totals:
  keys 2
  10.0.0.1 packets 3 octets 600
  10.0.0.2 packets 1 octets 60
  unassigned 0
  gaps 0
  skipped 0

Prints totals again (status 0): for each key the sums of its packets and octets, `unassigned N` and,
where one of the texts has them, `complete`, `skipped other N malformed N`, `gaps N` and
`skipped N`, added up too. So what was collected apart and summed is what would have been
collected together, in any order; and sums can be summed. A text that is refused:
`refused 861 line N` (status 2).

--explain explains what is refused in sentences, and what is due at that line.";

/// The text after the help of `join`.
pub const JOIN: &str = "\
Example:
  once-part cut network.json traffic.json --to parts
  once-part audit parts
  once-part bundle parts > parts.txt
  once join network.json traffic.json parts.txt

The example cuts a large network into parts with `once-part`, audits them, and joins them.

Files:
  NETWORK  JSON: \"devices\", \"links\", \"report\" of the whole network, of any size; an example of
           both documents: `once help lint`
  TRAFFIC  JSON: \"classes\" with regions and paths, of the whole network, of any size
  PARTS    a text of zero or more bundles, one directly after another: a line `check`, then the
           network document of the part, its traffic declaration and its certificate, each followed
           by a line `%%`; one part is kept in memory at a time

Checks each certificate as `once check` does. Looks up the part's collecting processes in the whole
network by the names of device and process, and its classes by name. A part covers a class if its
own class of that name has the same region and, for each path, one that is metered in the same way.
Each class of the whole network must be covered by a part.

Prints `yes` (status 0) only where every complete run of the whole network counts each packet of its
classes exactly once; whoever cut the network or made the certificates needn't be trusted. Or
`no NUMBER PLACE` (status 1), where parts count from 1 and classes from 0:

  no 421 part K      the documents or the certificate of part K are not accepted
  no 422 part K      the network of part K is not a part of the whole network
  no 423 /classes/I  no part covers class I of the whole network

A document of the whole network that is refused, or a text that is no part (801, at `part K`):
`refused NUMBER PLACE` (status 2).

--explain adds sentences about the part or the class, and what to do.";

/// The text after the help of `explain`.
pub const EXPLAIN: &str = "\
Examples:
  once explain 407
  once explain all

Prints what a refusal with this number says, what it usually comes from, what to do, and where to
read on (status 0); with `all` a line for each number. Another word than those prints
`unknown number` (status 1).";
