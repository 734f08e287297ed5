//! Recognizing files of other kinds by their first octets where a document is expected.
use crate::explanation::Explanation;
use crate::formats::{is_pcap, is_pcapng, packed_format};
use std::str;

/// The advice for a file that should be left out.
const LEFT_OUT: &str = "name the document's file in its place";

/// A file that is no document.
#[derive(Clone, Copy)]
struct OtherFile {
    /// The octets with which it begins, or the first word of a text.
    mark: &'static [u8],
    /// Its name, with the article.
    name: &'static str,
    /// The advice on where it belongs, or what to do with it.
    next: &'static str,
}

/// The advice on where a schedule and a capture belong.
const WITH_CAPTURE: &str = "the order of the files is: once run NETWORK TRAFFIC CAPTURE SCHEDULE";

/// The advice on where a bundle belongs.
const BUNDLE: &str = "it is read from standard input: once < BUNDLE";

/// The advice for a module.
const MODULE: &str =
    "a module says what a configuration may have; due is the configuration itself, in the JSON of RFC 7951";

/// The advice for a text in YAML.
const YAML: &str = "a document is JSON: turn it to that, as yq -o json does";

/// Texts by their first words: those of this program, and others.
const TEXTS: &[OtherFile] = &[
    OtherFile {
        mark: b"once-certificate",
        name: "a certificate",
        next: "the order of the files is: once check (or draw) NETWORK TRAFFIC CERTIFICATE",
    },
    OtherFile {
        mark: b"once-run",
        name: "a run",
        next: "the order of the files is: once replay NETWORK TRAFFIC RUN",
    },
    OtherFile {
        mark: b"once-refutation",
        name: "a refutation",
        next: "the order of the files is: once confirm (or draw) NETWORK TRAFFIC REFUTATION",
    },
    OtherFile {
        mark: b"keys",
        name: "a text of totals",
        next: "the order of the files is: once sum NETWORK TOTALS",
    },
    OtherFile {
        mark: b"next",
        name: "a schedule",
        next: WITH_CAPTURE,
    },
    OtherFile {
        mark: b"expire",
        name: "a schedule",
        next: WITH_CAPTURE,
    },
    OtherFile {
        mark: b"emit",
        name: "a schedule",
        next: WITH_CAPTURE,
    },
    OtherFile {
        mark: b"carry",
        name: "a schedule",
        next: WITH_CAPTURE,
    },
    OtherFile {
        mark: b"use",
        name: "a schedule",
        next: WITH_CAPTURE,
    },
    OtherFile {
        mark: b"audit",
        name: "a bundle",
        next: BUNDLE,
    },
    OtherFile {
        mark: b"check",
        name: "a bundle",
        next: BUNDLE,
    },
    OtherFile {
        mark: b"confirm",
        name: "a bundle",
        next: BUNDLE,
    },
    OtherFile {
        mark: b"replay",
        name: "a bundle",
        next: BUNDLE,
    },
    OtherFile {
        mark: b"ok",
        name: "an answer of once",
        next: LEFT_OUT,
    },
    OtherFile {
        mark: b"no",
        name: "an answer of once",
        next: LEFT_OUT,
    },
    OtherFile {
        mark: b"refused",
        name: "an answer of once",
        next: LEFT_OUT,
    },
    OtherFile {
        mark: b"unknown",
        name: "an answer of once",
        next: LEFT_OUT,
    },
    OtherFile {
        mark: b"memory",
        name: "an answer of once",
        next: LEFT_OUT,
    },
    OtherFile {
        mark: b"device",
        name: "an answer of once",
        next: LEFT_OUT,
    },
    OtherFile {
        mark: b"refuted",
        name: "an answer of once",
        next: LEFT_OUT,
    },
    OtherFile {
        mark: b"digraph",
        name: "a drawing for Graphviz",
        next: LEFT_OUT,
    },
    OtherFile {
        mark: b"module",
        name: "a module in YANG",
        next: MODULE,
    },
    OtherFile {
        mark: b"submodule",
        name: "a module in YANG",
        next: MODULE,
    },
    OtherFile {
        mark: b"---",
        name: "a text in YAML",
        next: YAML,
    },
    OtherFile {
        mark: b"-",
        name: "a text in YAML",
        next: YAML,
    },
    OtherFile {
        mark: b"name:",
        name: "a text in YAML",
        next: YAML,
    },
    OtherFile {
        mark: b"devices:",
        name: "a text in YAML",
        next: YAML,
    },
    OtherFile {
        mark: b"links:",
        name: "a text in YAML",
        next: YAML,
    },
    OtherFile {
        mark: b"report:",
        name: "a text in YAML",
        next: YAML,
    },
    OtherFile {
        mark: b"classes:",
        name: "a text in YAML",
        next: YAML,
    },
];

/// Files that are no texts, by their first octets.
const FILES: &[OtherFile] = &[
    OtherFile {
        mark: b"\x00\x0a",
        name: "a stream of IPFIX",
        next: "the order of the files is: once collect NETWORK STREAM",
    },
    OtherFile {
        mark: b"\x00\x05",
        name: "a stream of NetFlow",
        next: LEFT_OUT,
    },
    OtherFile {
        mark: b"\x00\x09",
        name: "a stream of NetFlow",
        next: LEFT_OUT,
    },
    OtherFile {
        mark: b"\x0c\xa5",
        name: "a file of nfdump",
        next: LEFT_OUT,
    },
    OtherFile {
        mark: b"\xa5\x0c",
        name: "a file of nfdump",
        next: LEFT_OUT,
    },
    OtherFile {
        mark: b"PK\x03\x04",
        name: "a zip archive",
        next: "unpack it, and name the document that stands in it",
    },
    OtherFile {
        mark: b"\x7fELF",
        name: "a program (ELF)",
        next: LEFT_OUT,
    },
    OtherFile {
        mark: b"%PDF",
        name: "a file of PDF",
        next: LEFT_OUT,
    },
    OtherFile {
        mark: b"\x89PNG",
        name: "a picture (PNG)",
        next: LEFT_OUT,
    },
];

/// A capture.
const CAPTURE: OtherFile = OtherFile {
    mark: b"",
    name: "a capture",
    next: WITH_CAPTURE,
};

/// A table of a network.
const TABLE: OtherFile = OtherFile {
    mark: b"",
    name: "a table of a network",
    next: "once-import table makes a network document and a traffic declaration of it",
};

/// A page in HTML.
const PAGE: OtherFile = OtherFile {
    mark: b"",
    name: "a page in HTML",
    next: "was an error page saved in the document's place? Look at it, and fetch the document once more",
};

/// A script.
const SCRIPT: OtherFile = OtherFile {
    mark: b"",
    name: "a script",
    next: LEFT_OUT,
};

/// A text in XML.
const XML: OtherFile = OtherFile {
    mark: b"",
    name: "a text in XML",
    next: "a document is JSON: turn a configuration to that by the rules of RFC 7951, as yanglint -f json does",
};

/// Returns whether a word begins a page in HTML.
fn is_page(word: &str) -> bool {
    word.starts_with("<!DOCTYPE")
        || word.starts_with("<!doctype")
        || word.starts_with("<html")
        || word.starts_with("<HTML")
        || word.starts_with("<head")
}

/// Returns the text that begins with a word.
fn text_of(word: &str) -> Option<OtherFile> {
    for text in TEXTS {
        if text.mark == word.as_bytes() {
            return Some(*text);
        }
    }
    if is_page(word) {
        Some(PAGE)
    } else if word.starts_with("#!") {
        Some(SCRIPT)
    } else if word.starts_with('<') {
        Some(XML)
    } else {
        None
    }
}

/// Returns whether a text is a table of a network, judged by one of its lines.
fn is_table(octets: &[u8]) -> bool {
    match str::from_utf8(octets) {
        Ok(text) => text.contains("\nobservation-point "),
        Err(_) => false,
    }
}

/// Returns the first word of a text.
fn first_word(octets: &[u8]) -> &str {
    match str::from_utf8(octets) {
        Ok(text) => text.split_whitespace().next().unwrap_or(""),
        Err(_) => "",
    }
}

/// Returns the file that these octets begin, if they alone identify it.
fn file_of(octets: &[u8]) -> Option<OtherFile> {
    for file in FILES {
        if octets.starts_with(file.mark) {
            return Some(*file);
        }
    }
    if is_pcap(octets) || is_pcapng(octets) {
        Some(CAPTURE)
    } else if (octets.starts_with(b"#") || octets.starts_with(b"d")) && is_table(octets) {
        Some(TABLE)
    } else {
        None
    }
}

/// Returns a description of a line that begins a file of another kind, recognized by its octets.
fn words_of_file(line: &[u8]) -> Option<&'static str> {
    if line.starts_with(b"\xff\xfe") || line.starts_with(b"\xfe\xff") {
        Some(
            "these octets are a text in UTF-16: write it in UTF-8 (iconv -f UTF-16 -t UTF-8 OLD > NEW)",
        )
    } else if is_pcap(line) {
        Some("this is a capture; once run reads it before the schedule")
    } else if line.starts_with(b"\x00\x0a") {
        Some("this is a stream of IPFIX, for once collect")
    } else if line.starts_with(b"PK\x03\x04") {
        Some("this is a zip archive: unpack it first")
    } else {
        packed_format(line)
    }
}

/// Returns a description of a line that begins a file of another kind, or `None` if the line may belong to a text.
pub fn foreign_words(line: &[u8]) -> Option<&'static str> {
    words_of_file(line).or(if line.contains(&0) {
        Some("octets of zero stand in it: it is no text in UTF-8")
    } else {
        None
    })
}

/// Returns what follows the kind of a file that is given instead of a network or of a traffic declaration.
fn due_words(is_network: bool) -> &'static str {
    if is_network {
        "; a network document is expected there"
    } else {
        "; a traffic declaration is expected there"
    }
}

/// Writes which file of another kind these octets begin, and where that file belongs. Returns whether they begin one.
pub fn write_other_file(out: &mut Explanation, octets: &[u8], is_network: bool) -> bool {
    if let Some(words) = packed_format(octets) {
        out.sentence(words);
        return true;
    }
    let Some(file) = file_of(octets).or(text_of(first_word(octets))) else {
        return false;
    };
    out.text("this is ");
    out.text(file.name);
    out.sentence(due_words(is_network));
    out.sentence(file.next);
    true
}
