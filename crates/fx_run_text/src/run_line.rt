//! The lines of a run's text.
ghost use Rattle.std.specs.Prelude.{◌≡◌, ◌≤◌, ◌<◌, ◌^◌, [], IfOk, IfSome, option_map};
ghost use Rattle.fx_elements.specs.Words.{words};
ghost use Rattle.fx_run_text.specs.RunReading.{last_first, fields_first, packet_of, cache_first, aggregation_first, holder_first, cross_first, expire_first, arrive_first, action_of, choice_of, choices_behind, step_with, step_of, line_with, line_of_kind, line_of};

use crate::step::{Choices, Step};
use crate::text_version::TextVersion;
use fx_boxes::Fields;
use fx_elements::{AXES, Axis, Words, is_word, read_u64};
use fx_tables::{HolderName, Packet};
use std::alloc::{AllocError, Global};

/// The action of a step, without its choices. All numbers and positions are 1-based.
#[derive(Clone, Copy)]
pub(crate) enum StepAction {
    Cross { packet: u64, crossing: u64 },
    Expire { holder: HolderName, position: u64 },
    Arrive { link: u64, position: u64 },
}

impl StepAction {
    /// Returns the step with this action and these choices.
    fn with(self, choices: Choices) -> Step
        ensures { result ≡ step_with self choices }
    {
        match self {
            StepAction::Cross { packet, crossing } => Step::Cross {
                packet,
                crossing,
                choices,
            },
            StepAction::Expire { holder, position } => Step::Expire {
                holder,
                position,
                choices,
            },
            StepAction::Arrive { link, position } => Step::Arrive {
                link,
                position,
                choices,
            },
        }
    }
}

/// The content of a line after the first.
#[derive(Debug, Drop)]
pub enum RunLine {
    /// A packet of the run.
    Packet(Packet),
    /// A step of the run.
    Step(Step),
    /// The end of the run.
    End,
}

/// The content read from a line after the first. The values of a packet are in the place that was passed in for them.
#[derive(Drop)]
pub(crate) enum ReadLine {
    Packet,
    Step(Step),
    End,
}

impl ReadLine {
    /// Returns the content of the line, given what is in the place for a packet.
    fn with(self, packet: Packet) -> RunLine
        ensures { result ≡ line_with packet self }
    {
        match self {
            ReadLine::Packet => RunLine::Packet(packet),
            ReadLine::Step(step) => RunLine::Step(step),
            ReadLine::End => RunLine::End,
        }
    }
}

/// Returns a place for a packet.
pub(crate) fn blank_packet() -> Packet {
    Packet {
        fields: Fields::of([0; AXES]),
        octets: 0,
        class: 0,
        path: 0,
    }
}

/// The values on the axes after the first six.
#[derive(Clone, Copy)]
struct LastFields {
    version: u128,
    source: u128,
    destination: u128,
}

/// Reads the values on the axes after the first six; in the first version they are those of an IPv4 packet.
#[tactic(auto, unfolding(crate::specs::RunReading::last_first))]
#[inline(always)]
fn read_last(version: TextVersion, words: Words<'_>) -> Option<(LastFields, Words<'_>)>
    ensures value { result ≡ last_first version words.entry }
    ensures bound { IfSome result (λ r. (r.0.version ≤ 255) × (r.0.source < 2 ^ 128)
        × (r.0.destination < 2 ^ 128)) }
{
    match version {
        TextVersion::One => Some((
            LastFields {
                version: 4,
                source: 0,
                destination: 0,
            },
            words,
        )),
        TextVersion::Two => {
            let (version, words) = words.value(Axis::Version)?;
            let (source, words) = words.value(Axis::Source6)?;
            let (destination, words) = words.value(Axis::Destination6)?;
            let last = LastFields {
                version,
                source,
                destination,
            };
            Some((last, words))
        }
    }
}

/// Reads the values on all axes, in order.
#[tactic(auto, unfolding(crate::specs::RunReading::fields_first))]
fn read_fields(version: TextVersion, words: Words<'_>) -> Option<(Fields, Words<'_>)>
    ensures { result ≡ fields_first version words.entry }
{
    let (source, words) = words.value(Axis::Source)?;
    let (destination, words) = words.value(Axis::Destination)?;
    let (protocol, words) = words.value(Axis::Protocol)?;
    let (source_port, words) = words.value(Axis::SourcePort)?;
    let (destination_port, words) = words.value(Axis::DestinationPort)?;
    let (service, words) = words.value(Axis::ClassOfService)?;
    let (last, words) = read_last(version, words)?;
    let fields = Fields::of([
        source,
        destination,
        protocol,
        source_port,
        destination_port,
        service,
        last.version,
        last.source,
        last.destination,
    ]);
    Some((fields, words))
}

/// Reads the part of a packet's line after its first word into the place for the packet.
#[tactic(auto, unfolding(crate::specs::RunReading::packet_of))]
fn read_packet(version: TextVersion, words: Words<'_>, packet: &mut Packet) -> Option<()>
    ensures { option_map (λ _. packet.new) result ≡ packet_of version words.entry }
{
    let (class, words) = words.number()?;
    let (path, words) = words.number()?;
    let (fields, words) = read_fields(version, words)?;
    let (octets, words) = words.number()?;
    if !words.is_empty() {
        return None;
    }
    *packet = Packet {
        fields,
        octets,
        class,
        path,
    };
    Some(())
}

/// Reads the numbers of a cache.
#[tactic(auto, unfolding(crate::specs::RunReading::cache_first))]
fn read_cache(words: Words<'_>) -> Option<(HolderName, Words<'_>)>
    ensures { result ≡ cache_first words.entry }
{
    let (device, words) = words.number()?;
    let (cache, words) = words.number()?;
    Some((HolderName::Cache { device, cache }, words))
}

/// Reads the numbers of an aggregation.
#[tactic(auto, unfolding(crate::specs::RunReading::aggregation_first))]
fn read_aggregation(words: Words<'_>) -> Option<(HolderName, Words<'_>)>
    ensures { result ≡ aggregation_first words.entry }
{
    let (device, words) = words.number()?;
    let (process, words) = words.number()?;
    let (aggregation, words) = words.number()?;
    Some((
        HolderName::Aggregation {
            device,
            process,
            aggregation,
        },
        words,
    ))
}

/// Reads a cache or an aggregation.
#[tactic(auto, unfolding(crate::specs::RunReading::holder_first))]
fn read_holder(words: Words<'_>) -> Option<(HolderName, Words<'_>)>
    ensures { result ≡ holder_first words.entry }
{
    let (kind, words) = words.word()?;
    if is_word(kind, b"cache") {
        read_cache(words)
    } else if is_word(kind, b"aggregation") {
        read_aggregation(words)
    } else {
        None
    }
}

/// Reads the numbers of a crossing.
#[tactic(auto, unfolding(crate::specs::RunReading::cross_first))]
fn read_cross(words: Words<'_>) -> Option<(StepAction, Words<'_>)>
    ensures { result ≡ cross_first words.entry }
{
    let (packet, words) = words.number()?;
    let (crossing, words) = words.number()?;
    Some((StepAction::Cross { packet, crossing }, words))
}

/// Reads the holder and the position of a record that leaves it.
#[tactic(auto, unfolding(crate::specs::RunReading::expire_first))]
fn read_expire(words: Words<'_>) -> Option<(StepAction, Words<'_>)>
    ensures { result ≡ expire_first words.entry }
{
    let (holder, words) = read_holder(words)?;
    let (position, words) = words.number()?;
    Some((StepAction::Expire { holder, position }, words))
}

/// Reads the link and the position of a record that arrives.
#[tactic(auto, unfolding(crate::specs::RunReading::arrive_first))]
fn read_arrive(words: Words<'_>) -> Option<(StepAction, Words<'_>)>
    ensures { result ≡ arrive_first words.entry }
{
    let (link, words) = words.number()?;
    let (position, words) = words.number()?;
    Some((StepAction::Arrive { link, position }, words))
}

/// Reads the action of a step of this kind.
#[tactic(auto, unfolding(crate::specs::RunReading::action_of))]
fn read_action<'a>(kind: &[u8], words: Words<'a>) -> Option<(StepAction, Words<'a>)>
    ensures { result ≡ action_of kind.now words.entry }
{
    if is_word(kind, b"cross") {
        read_cross(words)
    } else if is_word(kind, b"expire") {
        read_expire(words)
    } else if is_word(kind, b"arrive") {
        read_arrive(words)
    } else {
        None
    }
}

/// Reads a choice: `n` for a new record, or a number.
fn read_choice(word: &[u8]) -> Option<Option<u64>>
    ensures { result ≡ choice_of word.now }
{
    if is_word(word, b"n") {
        return Some(None);
    }
    let number = read_u64(word)?;
    Some(Some(number))
}

/// Reads all of these words as choices.
fn read_choices(alloc: Global, words: Words<'_>) -> Result<Option<Choices>, AllocError>
    ensures { IfOk result (λ choices. choices ≡ choices_behind [] words.entry) }
{
    let mut choices = Choices::none(alloc);
    let mut words = words;
    'words: loop {
        let Some((word, rest)) = words.word() else {
            return Ok(Some(choices));
        };
        let Some(choice) = read_choice(word) else {
            return Ok(None);
        };
        choices.push(choice)?;
        words = rest;
    }
}

/// Reads a step of this kind.
#[tactic(auto, unfolding(crate::specs::RunReading::step_of))]
fn read_step(alloc: Global, kind: &[u8], words: Words<'_>) -> Result<Option<Step>, AllocError>
    ensures { IfOk result (λ step. step ≡ step_of kind.now words.entry) }
{
    let Some((action, words)) = read_action(kind, words) else {
        return Ok(None);
    };
    let Some(choices) = read_choices(alloc, words)? else {
        return Ok(None);
    };
    Ok(Some(action.with(choices)))
}

/// Reads the content of a line of this kind, a packet into the place for it.
#[tactic(auto, unfolding(crate::specs::RunReading::line_of_kind))]
#[inline(always)]
fn read_kind(
    alloc: Global,
    version: TextVersion,
    kind: &[u8],
    words: Words<'_>,
    packet: &mut Packet,
) -> Result<Option<ReadLine>, AllocError>
    ensures { IfOk result (λ x. option_map (line_with packet.new) x
        ≡ line_of_kind version kind.now words.entry) }
{
    if is_word(kind, b"packet") {
        let read = read_packet(version, words, packet);
        return Ok(read.is_some().then_some(ReadLine::Packet));
    }
    if is_word(kind, b"end") {
        return Ok(words.is_empty().then_some(ReadLine::End));
    }
    match read_step(alloc, kind, words)? {
        Some(step) => Ok(Some(ReadLine::Step(step))),
        None => Ok(None),
    }
}

/// Reads the content of a line after the first, if it is well-formed, a packet into the place for it.
#[inline(always)]
pub(crate) fn read_line(
    alloc: Global,
    version: TextVersion,
    line: &[u8],
    packet: &mut Packet,
) -> Result<Option<ReadLine>, AllocError>
    ensures { IfOk result (λ x. option_map (line_with packet.new) x
        ≡ line_of version (words line.now)) }
{
    let Some((kind, words)) = Words::new(line).word() else {
        return Ok(None);
    };
    read_kind(alloc, version, kind, words, packet)
}

/// Reads the content of a line after the first, if it is well-formed: a packet, a step, or the end of the run.
///
/// Fails if out of memory.
pub fn read_run_line(
    alloc: Global,
    version: TextVersion,
    line: &[u8],
) -> Result<Option<RunLine>, AllocError>
    ensures { IfOk result (λ x. x ≡ line_of version (words line.now)) }
{
    let mut packet = blank_packet();
    match read_line(alloc, version, line, &mut packet)? {
        Some(x) => Ok(Some(x.with(packet))),
        None => Ok(None),
    }
}
