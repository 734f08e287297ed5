//! The numbers of refusals, each with a name.
//!
//! A number is never reused for anything else. The first digit says what is refused: 1 a device, 2 a network, 3 a
//! traffic declaration, 4 a certificate, 5 a refutation, 6 a search (601) or a stream, 7 a capture, 8 a schedule, a
//! bundle, a run or totals, 9 what the program runs on. `specs/Refusals` has them as definitions, and a list of all.

/// A document isn't JSON text in UTF-8 (RFC 8259).
pub const NOT_JSON: u16 = 101;
/// A member isn't allowed there (RFC 6728, RFC 7951).
pub const UNKNOWN_MEMBER: u16 = 102;
/// A required member is missing, or a list that requires an entry is empty.
pub const MISSING_MEMBER: u16 = 103;
/// A value has another JSON kind than its member requires (RFC 7951, section 6).
pub const WRONG_KIND: u16 = 104;
/// A value of the right kind isn't allowed.
pub const BAD_VALUE: u16 = 105;
/// A name appears twice in its list.
pub const NAME_TWICE: u16 = 106;
/// A reference names nothing that exists.
pub const UNKNOWN_NAME: u16 = 107;
/// A selector samples (RFC 5475, section 5): totals over a sample aren't exact.
pub const SAMPLING_SELECTOR: u16 = 108;
/// A selector filters by a hash (RFC 5475, section 6.2).
pub const HASH_FILTER: u16 = 109;
/// A counter of a cache has a length other than 8 octets (RFC 7011, section 6.2).
pub const CACHE_COUNTER_LENGTH: u16 = 110;
/// A counter is a total since the beginning, element 85 or 86 (RFC 7012).
pub const TOTAL_COUNTER: u16 = 111;
/// A flow key isn't an axis.
pub const KEY_WITHOUT_AXIS: u16 = 112;
/// A file is given as transport.
pub const FILE_TRANSPORT: u16 = 113;
/// A cache's layout lacks `octetDeltaCount` or `packetDeltaCount`.
pub const MISSING_COUNTER: u16 = 114;
/// A list of a device or of a network has too many entries.
pub const TOO_MANY_ENTRIES: u16 = 115;

/// An end of a link doesn't exist.
pub const UNKNOWN_LINK_END: u16 = 201;
/// A destination has a link already.
pub const LINKED_TWICE: u16 = 202;
/// Links form a cycle.
pub const LINK_CYCLE: u16 = 204;
/// The device or collecting process of the report doesn't exist.
pub const UNKNOWN_REPORT_PROCESS: u16 = 205;
/// The key of the report isn't made of axes, each at most once.
pub const REPORT_KEY: u16 = 206;
/// There are more than 64 different layouts.
pub const TOO_MANY_LAYOUTS: u16 = 207;

/// The name of a class appears twice.
pub const CLASS_TWICE: u16 = 301;
/// A value of a traffic declaration isn't allowed.
pub const TRAFFIC_VALUE: u16 = 302;
/// A crossing names a device that doesn't exist.
pub const UNKNOWN_DEVICE: u16 = 303;
/// A class has no path.
pub const NO_PATH: u16 = 304;
/// A list of a traffic declaration has too many entries.
pub const TOO_MUCH_TRAFFIC: u16 = 305;

/// The first number of a certificate's refusals.
pub const CERTIFICATE_FIRST: u16 = 401;
/// The last number of a certificate's refusals.
pub const CERTIFICATE_LAST: u16 = 415;
/// The first line isn't that of a certificate.
pub const CERTIFICATE_HEADER: u16 = 401;
/// A line doesn't have the form of a certificate's line.
pub const CERTIFICATE_LINE: u16 = 402;
/// A line is out of place.
pub const CERTIFICATE_ORDER: u16 = 403;
/// A split isn't strictly inside its region.
pub const SPLIT_NOT_INSIDE: u16 = 404;
/// A certificate ends before its line `end`.
pub const CERTIFICATE_CUT: u16 = 405;
/// A selection process or a match holds for only part of a leaf's region.
pub const CUT_REGION: u16 = 406;
/// The packets of a leaf are never counted.
pub const NEVER_COUNTED: u16 = 407;
/// The packets of a leaf are counted more than once.
pub const COUNTED_MORE_THAN_ONCE: u16 = 408;
/// How often the packets of a leaf are counted depends on the chosen destination.
pub const DESTINATIONS_DIFFER: u16 = 409;
/// The packets of a leaf are counted once, but not where the leaf says.
pub const COUNTED_ELSEWHERE: u16 = 410;
/// A line follows the end.
pub const LINE_BEHIND_END: u16 = 411;
/// A split is deeper than 511.
pub const SPLIT_TOO_DEEP: u16 = 412;
/// The key of the report can't be read from a record that results from a leaf's packets.
pub const UNASSIGNED_RECORD: u16 = 413;
/// There are more than 1,000,000 lines of splits and leaves.
pub const TOO_MANY_LINES: u16 = 414;
/// The packets of a leaf belong to an exempt class, but each is counted once.
pub const EXEMPT_COUNTED: u16 = 415;

/// The documents or the certificate of a part aren't accepted.
pub const PART_REFUSED: u16 = 421;
/// The network of a part isn't a part of the whole network.
pub const NOT_A_PART: u16 = 422;
/// No part covers a class of the whole network.
pub const CLASS_NOT_COVERED: u16 = 423;

/// The first number of a refutation's refusals.
pub const REFUTATION_FIRST: u16 = 501;
/// The last number of a refutation's refusals.
pub const REFUTATION_LAST: u16 = 505;
/// The text isn't a refutation.
pub const REFUTATION_FORM: u16 = 501;
/// A refutation's packet isn't in its class.
pub const REFUTATION_PACKET: u16 = 502;
/// A step of a refutation isn't enabled.
pub const REFUTATION_STEP: u16 = 503;
/// A refutation's run isn't complete.
pub const RUN_NOT_COMPLETE: u16 = 504;
/// A refutation's totals equal the plain sums, and nothing is unassigned.
pub const TOTALS_AGREE: u16 = 505;

/// A search needs more than its limits allow.
pub const SEARCH_TOO_LARGE: u16 = 601;
/// The version of a message isn't 10 (RFC 7011, section 3.1).
pub const MESSAGE_VERSION: u16 = 611;
/// A message's length is below 16, or the stream ends inside the message (RFC 7011, section 3.1).
pub const MESSAGE_LENGTH: u16 = 612;
/// A set's length is below 4 or extends past the end of its message (RFC 7011, section 3.3.2).
pub const SET_LENGTH: u16 = 613;
/// A template doesn't have the form of RFC 7011, section 3.4.
pub const TEMPLATE_FORM: u16 = 614;
/// A set has a reserved id (RFC 7011, section 3.3.2).
pub const RESERVED_SET: u16 = 615;
/// A live id is given another template (RFC 7011, section 8).
pub const TEMPLATE_CHANGED: u16 = 616;
/// A data set has no template (RFC 7011, section 8).
pub const NO_TEMPLATE: u16 = 617;
/// A counter of a template has a length other than 8 octets (RFC 7011, section 6.2).
pub const TEMPLATE_COUNTER_LENGTH: u16 = 618;
/// A record extends past the end of its set (RFC 7011, section 3.3.1).
pub const RECORD_PAST_SET: u16 = 619;
/// A prefix is longer than its address.
pub const PREFIX_LENGTH: u16 = 620;

/// A capture's file header isn't that of classic pcap, version 2.4.
pub const CAPTURE_FORMAT: u16 = 701;
/// A capture's link type is neither 1 (Ethernet) nor 101 (IP).
pub const LINK_TYPE: u16 = 702;
/// A capture ends inside a record.
pub const CAPTURE_CUT: u16 = 703;
/// A captured record has more than 262,144 octets.
pub const LONG_CAPTURE_RECORD: u16 = 704;

/// A line doesn't have the form of a schedule's line, or standard input isn't a bundle.
pub const SCHEDULE_OR_BUNDLE: u16 = 801;
/// What a line of a schedule requests doesn't exist.
pub const NOTHING_THERE: u16 = 802;
/// A packet isn't in the class that a line of a schedule names.
pub const NOT_IN_NAMED_CLASS: u16 = 803;
/// A packet of a capture is in no class.
pub const IN_NO_CLASS: u16 = 804;
/// A step of a run isn't enabled.
pub const STEP_NOT_ENABLED: u16 = 851;
/// The choices of a step are wrong.
pub const WRONG_CHOICES: u16 = 852;
/// There is no record at the position that a step names.
pub const NO_RECORD_THERE: u16 = 853;
/// The first line isn't that of a run.
pub const RUN_HEADER: u16 = 854;
/// A line doesn't have the form of a run's line, or a line is missing.
pub const RUN_FORM: u16 = 855;
/// A packet of a run isn't in its class.
pub const RUN_PACKET: u16 = 856;
/// A text isn't totals of the report, or one of its lines is out of place.
pub const TOTALS_FORM: u16 = 861;

/// Out of memory.
pub const WANT_OF_MEMORY: u16 = 900;
/// A read failed, or a file can't be opened.
pub const FAILED_READ: u16 = 901;
/// A write failed, or a file can't be created.
pub const FAILED_WRITE: u16 = 902;
/// A line has more than 4,096 octets.
pub const LONG_LINE: u16 = 903;
