//! Drawing a network, the traffic that crosses it, and a certificate or a refutation of it, as a graph in the DOT
//! language of Graphviz.
#![tactic(auto)]

mod certificates;
mod devices;
mod documents;
mod dot;
mod drawing;
mod edges;
mod folding;
mod labels;
mod lines;
mod marks;
mod nodes;
mod refutations;
mod traffic;
mod ways;

pub use drawing::put_drawing;
