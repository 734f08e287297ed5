//! The fate of a packet: how often it is counted, and when a certificate shows that each packet is counted exactly
//! once.
#![tactic(auto)]

mod balance;
mod bound;
mod cause;
mod entry;
mod judgement;
mod laws;
mod leaf;
mod match_bounds;
mod middle;
mod path;
mod path_scratch;
mod path_selections;
mod reach;
mod regions;
mod remaining;
mod rows;
mod sends;
mod split;
mod table;
mod tables;
mod verdict;

pub use balance::CutBounds;
pub use judgement::{Judgement, judge};
pub use laws::{conservation, exactly_once, fates_along_ranks, verdicts_judge_regions};
pub use leaf::{Counted, fate, never};
pub use path_scratch::PathScratch;
pub use regions::{Overlap, match_overlap, region_overlap, selection_overlap};
pub use split::cut;
pub use table::Scratch;
pub use tables::Tables;
pub use verdict::{Fate, overlap_verdict, verdict_of_both, verdict_of_either};
