//! Text in the DOT language of Graphviz that is collected before any of it is written.
ghost use Rattle.std.specs.Prelude.{◌≡◌, true, IfOk};
ghost use Rattle.fx_base.specs.Fault.{shown};
ghost use Rattle.fx_drawings.specs.Drawings.{IsPlainDrawing, is_plain};

use crate::folding::Folding;
use crate::nodes::Node;
use fx_base::Room;
use fx_elements::{Axis, put_value, top, width};
use itoa::Buffer;
use std::alloc::{AllocError, Global};
use std::marker::Model;

/// The statements of a graph, with no control characters but line feeds: those of a document become `?`. After a failed
/// allocation nothing more is added, and [`Dot::octets`] returns the error.
#[derive(Drop)]
pub(crate) struct Dot {
    octets: Vec<u8>,
    is_short: bool,
    folding: Folding,
}

impl Model for Dot {
    ghost use Rattle.std.specs.Prelude.{List, ℕ};
    ghost use Rattle.fx_drawings.specs.Drawings.{IsPlainDrawing};

    ghost Value = { List ℕ };

    ghost view = { λ d. d.octets.items };

    ghost invariant = { λ d. IsPlainDrawing d.octets.items };
}

/// Returns the octet as it is drawn: `?` for a control character.
fn shown_octet(octet: u8) -> u8
    ensures { result ≡ shown octet }
{
    if octet < 32 || octet == 127 {
        b'?'
    } else {
        octet
    }
}

impl Dot {
    /// Returns a drawing without statements, in which these devices are drawn as one.
    pub(crate) fn new(alloc: Global, folding: Folding) -> Dot {
        Dot {
            octets: Vec::new(alloc),
            is_short: false,
            folding,
        }
    }

    /// Returns which devices are drawn as one.
    pub(crate) fn folding(&self) -> &Folding {
        &self.folding
    }

    /// Returns whether two drawings have the same statements.
    pub(crate) fn is_like(&self, other: &Dot) -> bool {
        self.octets.as_slice() == other.octets.as_slice()
    }

    /// Returns the node as which a node is drawn: that of the device as which its device is drawn.
    pub(crate) fn drawn(&self, node: Node) -> Node {
        if !node.is_of_device() {
            return node;
        }
        Node {
            first: self.folding.of(node.first),
            ..node
        }
    }

    /// Returns the statements.
    ///
    /// Fails if an allocation failed while they were added.
    pub(crate) fn octets(&self) -> Result<&[u8], AllocError>
        ensures plain { IfOk result (λ octets. IsPlainDrawing octets.now) }
    {
        if self.is_short {
            return Err(AllocError);
        }
        Ok(self.octets.as_slice())
    }

    /// Adds an octet that is a line feed or no control character.
    fn octet(&mut self, octet: u8)
        requires { is_plain octet ≡ true }
    {
        if !self.is_short && self.octets.push(octet).is_err() {
            self.is_short = true;
        }
    }

    /// Adds octets as they are.
    fn octets_of(&mut self, octets: &[u8]) {
        for octet in octets {
            self.octet(shown_octet(*octet));
        }
    }

    /// Adds a part of a statement as it is.
    pub(crate) fn code(&mut self, text: &str) {
        self.octets_of(text.as_bytes());
    }

    /// Adds octets to a quoted string: quotation marks and backslashes are escaped, and a line feed begins a new line
    /// of a label.
    pub(crate) fn lines(&mut self, octets: &[u8]) {
        for octet in octets {
            match octet {
                b'"' => self.code("\\\""),
                b'\\' => self.code("\\\\"),
                b'\n' => self.code("\\n"),
                _ => self.octet(shown_octet(*octet)),
            }
        }
    }

    /// Adds a text to a quoted string, escaped as by [`Dot::lines`].
    pub(crate) fn quoted(&mut self, text: &str) {
        self.lines(text.as_bytes());
    }

    /// Adds a number in decimal.
    pub(crate) fn number(&mut self, number: u64) {
        let mut buffer = Buffer::new();
        self.octets_of(buffer.format(number).as_bytes());
    }

    /// Adds the name of the node as which a node is drawn: its kind and its numbers.
    pub(crate) fn node(&mut self, node: Node) {
        let node = self.drawn(node);
        self.code(node.kind);
        self.number(node.first);
        self.code_number("_", node.second);
        self.code_number("_", node.third);
    }

    /// Adds a value of an axis; an address is in the usual notation.
    pub(crate) fn value(&mut self, axis: Axis, value: u128) {
        if value > top(axis) {
            return;
        }
        let mut octets = [0; 64];
        let mut room = Room::new(&mut octets);
        // No value is longer than the buffer.
        let _written = put_value(&mut room, axis, width(axis), value);
        self.octets_of(room.octets());
    }

    /// Adds a part of a statement, and a number in decimal after it.
    pub(crate) fn code_number(&mut self, text: &str, number: u64) {
        self.code(text);
        self.number(number);
    }

    /// Adds a part of a statement, and a node's name after it.
    pub(crate) fn code_node(&mut self, text: &str, node: Node) {
        self.code(text);
        self.node(node);
    }

    /// Adds a part of a statement, and an escaped text of a quoted string after it.
    pub(crate) fn code_quoted(&mut self, text: &str, quoted: &str) {
        self.code(text);
        self.quoted(quoted);
    }

    /// Adds a part of a statement, and ends the line.
    pub(crate) fn line(&mut self, text: &str) {
        self.code(text);
        self.octet(b'\n');
    }
}
