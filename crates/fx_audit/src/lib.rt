//! Commands over octets: documents and line texts in, exact text out.
#![tactic(auto)]

mod audit_command;
mod bundle;
mod bundle_command;
mod collect_command;
mod collecting;
mod confirm_command;
mod explainer;
mod laws;
mod lint_command;
mod replay_command;
mod replaying;
mod run_command;
mod sum_command;

pub use audit_command::{AUDIT_LIMIT, audit_bytes, audit_explained};
pub use bundle::Command;
pub use bundle_command::{bundle_bytes, bundle_explained};
pub use collect_command::{collect_bytes, collect_explained};
pub use confirm_command::{confirm_bytes, confirm_explained};
pub use explainer::{Explainer, PacketAt};
pub use fx_checker::{AcceptedDocuments, Answer, Unexplained, check_bytes, check_explained};
pub use laws::refusals_are_listed;
pub use lint_command::{lint_both_bytes, lint_both_explained, lint_bytes, lint_explained};
pub use replay_command::{replay_bytes, replay_explained};
pub use run_command::{run_bytes, run_explained};
pub use sum_command::{sum_bytes, sum_explained};
