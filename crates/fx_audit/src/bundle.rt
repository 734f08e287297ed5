//! Bundles: a command and its texts in a single text.
ghost use Rattle.std.specs.Prelude.{◌≡◌, ℕ, ◌+◌, ◌<◌, ◌≤◌, List, [], true, false, take, drop, length, IfSome, IfNone, ◌++◌};
ghost use Rattle.fx_audit.specs.Bundle.{begins_line, is_mark_at, FirstText, HasNoMark, IsBundle, ThirdText, command_line};
ghost use Rattle.fx_audit.specs.declared.bundle.Command.{Command};

/// A command that a bundle may name.
#[derive(Clone, Copy)]
pub enum Command {
    Replay,
    Check,
    Confirm,
    Audit,
}

/// A bundle's command and its texts.
#[derive(Drop)]
pub struct Bundle<'a> {
    pub command: Command,
    pub network: &'a [u8],
    pub traffic: &'a [u8],
    /// A run, a certificate or a refutation; empty for an audit, which has no third text.
    pub third: &'a [u8],
}

/// Returns whether a line begins at an index.
fn begins_line(bytes: &[u8], at: usize) -> bool
    requires { at ≤ length bytes.now }
    ensures { result ≡ begins_line bytes.now at }
{
    at == 0 || bytes[at - 1] == b'\n'
}

/// Returns whether a line `%%` is at an index.
fn is_mark_at(bytes: &[u8], at: usize) -> bool
    requires { at ≤ length bytes.now }
    ensures { result ≡ is_mark_at bytes.now at }
{
    begins_line(bytes, at) && bytes[at..].starts_with(b"%%\n")
}

/// Returns the index of the first line `%%`.
#[tactic(auto, using(crate::proofs::Marks::mark_within))]
fn first_mark(bytes: &[u8]) -> Option<usize>
    ensures some { IfSome result (λ at. (at + 3 ≤ length bytes.now)
        × (is_mark_at bytes.now at ≡ true) × ((k : ℕ) → k < at → is_mark_at bytes.now k ≡ false)) }
    ensures none { IfNone result (HasNoMark bytes.now) }
{
    for at in 0..bytes.len() {
        if is_mark_at(bytes, at) {
            return Some(at);
        }
    }
    None
}

/// Returns the first text of these octets, and what follows the line `%%` that ends it.
fn first_text(bytes: &[u8]) -> Option<(&[u8], &[u8])>
    ensures some { IfSome result (λ parts. FirstText bytes.now parts.0.now parts.1.now) }
    ensures none { IfNone result (HasNoMark bytes.now) }
{
    let at = first_mark(bytes)?;
    Some((bytes.split_at(at).0, bytes.split_at(at + 3).1))
}

/// Returns the command, and what follows its line.
fn command_of(bytes: &[u8]) -> Option<(Command, &[u8])>
    ensures some { IfSome result (λ p. bytes.now ≡ command_line p.0 ++ p.1.now) }
    ensures none { IfNone result ((command : Command) (rest : List ℕ)
        → bytes.now ≡ command_line command ++ rest → ⊥) }
{
    if let Some(rest) = bytes.strip_prefix(b"replay\n") {
        return Some((Command::Replay, rest));
    }
    if let Some(rest) = bytes.strip_prefix(b"confirm\n") {
        return Some((Command::Confirm, rest));
    }
    if let Some(rest) = bytes.strip_prefix(b"audit\n") {
        return Some((Command::Audit, rest));
    }
    let rest = bytes.strip_prefix(b"check\n")?;
    Some((Command::Check, rest))
}

/// Returns the third text of a command, and what follows it.
fn third_text(command: Command, bytes: &[u8]) -> Option<(&[u8], &[u8])>
    ensures some { IfSome result (λ parts. ThirdText command bytes.now parts.0.now parts.1.now) }
    ensures none { IfNone result ((text : List ℕ) (rest : List ℕ)
        → ThirdText command bytes.now text rest → ⊥) }
{
    match command {
        Command::Replay | Command::Check | Command::Confirm => first_text(bytes),
        Command::Audit => Some((&[], bytes)),
    }
}

/// Splits octets into the parts of a bundle. Returns `None` if they have another shape.
pub fn read_bundle(bytes: &[u8]) -> Option<Bundle<'_>>
    ensures some { IfSome result (λ bundle. IsBundle bytes.now bundle.command bundle.network.now
        bundle.traffic.now bundle.third.now) }
    ensures none { IfNone result ((command : Command) (network : List ℕ) (traffic : List ℕ)
        (third : List ℕ) → IsBundle bytes.now command network traffic third → ⊥) }
{
    let (command, rest) = command_of(bytes)?;
    let (network, rest) = first_text(rest)?;
    let (traffic, rest) = first_text(rest)?;
    let (third, rest) = third_text(command, rest)?;
    if !rest.is_empty() {
        return None;
    }
    Some(Bundle {
        command,
        network,
        traffic,
        third,
    })
}
