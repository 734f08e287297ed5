//! The names of a command's files.

use fx_command_line::Call;

/// The names of the files that a command reads. A name is empty if the command has no such file.
#[derive(Clone, Copy, Drop)]
pub(crate) struct FileNames<'a> {
    /// The network document.
    pub(crate) network: &'a str,
    /// The traffic declaration.
    pub(crate) traffic: &'a str,
    /// The capture that a network runs over.
    pub(crate) capture: &'a str,
    /// The text or stream that is read last.
    pub(crate) last: &'a str,
}

/// The names for a bundle, whose third text isn't a file.
pub(crate) const BUNDLE: FileNames<'static> = FileNames {
    network: "standard input, the network in the bundle",
    traffic: "standard input, the traffic in the bundle",
    capture: "",
    last: "",
};

/// Returns the names of a network document and a last file.
fn with_network<'a>(network: &'a str, last: &'a str) -> FileNames<'a> {
    FileNames {
        network,
        traffic: "",
        capture: "",
        last,
    }
}

/// Returns the names of a network document, a traffic declaration and a last file.
fn with_documents<'a>(network: &'a str, traffic: &'a str, last: &'a str) -> FileNames<'a> {
    FileNames {
        network,
        traffic,
        capture: "",
        last,
    }
}

/// Returns the name of an optional file, or an empty name.
fn given(name: Option<&str>) -> &str {
    name.unwrap_or("")
}

/// Returns the names of a call's files.
pub(crate) fn names_of(call: &Call) -> FileNames<'_> {
    match call {
        Call::Replay {
            network,
            traffic,
            run,
        } => with_documents(network.as_str(), traffic.as_str(), run.as_str()),
        Call::Check {
            network,
            traffic,
            certificate,
        } => with_documents(network.as_str(), traffic.as_str(), certificate.as_str()),
        Call::Confirm {
            network,
            traffic,
            refutation,
        } => with_documents(network.as_str(), traffic.as_str(), refutation.as_str()),
        Call::Join {
            network,
            traffic,
            parts,
        } => with_documents(network.as_str(), traffic.as_str(), parts.as_str()),
        Call::Audit {
            network,
            traffic,
            ..
        } => with_documents(network.as_str(), traffic.as_str(), ""),
        Call::Run {
            network,
            traffic,
            capture,
            schedule,
            ..
        } => FileNames {
            network: network.as_str(),
            traffic: traffic.as_str(),
            capture: capture.as_str(),
            last: schedule.as_str(),
        },
        Call::Collect { network, stream } => with_network(network.as_str(), stream.as_str()),
        Call::Sum { network, totals } => with_network(network.as_str(), totals.as_str()),
        Call::Lint { network, traffic } => {
            with_documents(network.as_str(), given(traffic.as_deref()), "")
        }
        Call::Draw {
            network,
            traffic,
            answer,
            ..
        } => with_documents(
            network.as_str(),
            given(traffic.as_deref()),
            given(answer.as_deref()),
        ),
        Call::Explain { .. } => with_network("", ""),
    }
}
