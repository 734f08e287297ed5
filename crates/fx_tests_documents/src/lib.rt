//! Tests of documents, and of the commands over them.
#![tactic(auto)]

#[cfg(test)]
mod answers;
#[cfg(test)]
mod audit_audits;
#[cfg(test)]
mod audit_bundles;
#[cfg(test)]
mod audit_checks;
#[cfg(test)]
mod audit_collects;
#[cfg(test)]
mod audit_confirms;
#[cfg(test)]
mod audit_lints;
#[cfg(test)]
mod audit_replays;
#[cfg(test)]
mod audit_runs;
#[cfg(test)]
mod audit_sums;
#[cfg(test)]
mod audit_texts;
#[cfg(test)]
mod check;
#[cfg(test)]
mod config;
#[cfg(test)]
mod config_caches;
#[cfg(test)]
mod config_refusals;
#[cfg(test)]
mod documents;
#[cfg(test)]
mod drawings;
#[cfg(test)]
mod explanations;
#[cfg(test)]
mod joins;
#[cfg(test)]
mod json_answers;
#[cfg(test)]
mod judging;
#[cfg(test)]
mod networks;
#[cfg(test)]
mod plan;
#[cfg(test)]
mod refute;
#[cfg(test)]
mod run_explanations;
#[cfg(test)]
mod running;
#[cfg(test)]
mod selectors;
#[cfg(test)]
mod traffic;
#[cfg(test)]
mod traffic_refusals;
#[cfg(test)]
mod whole;
