//! Joins parts one after another.
ghost use Rattle.std.specs.Prelude.{◌≡◌, ◌⊎◌, length, IfErr, OnOk};
ghost use Rattle.fx_base.specs.Device.{MayHaveLeft};
ghost use Rattle.fx_base.specs.Fault.{fault_at, IsMemory};
ghost use Rattle.fx_base.specs.declared.fault.Place.TheVariants as places;
ghost use Rattle.fx_base.specs.Refusals.{link_cycle};
ghost use Rattle.fx_check.specs.Declarations.{IsCertified};
ghost use Rattle.fx_checker.specs.Documents.{CannotRead};
ghost use Rattle.fx_parts.specs.Parts as parts;
ghost use Rattle.fx_plan.specs.Tables.{net_of};
ghost use Rattle.fx_join.specs.Joins.{IsAllParts, IsClassAt, IsCounted, IsRefusedIn, IsUnread, IsWrong, JoinsMore};
ghost use Rattle.fx_join.specs.PartChecks.{IsAtPart, IsEndlessPart, IsPartText, IsSomewhereIn, IsWrongPart};
ghost use Rattle.fx_base.specs.Refusals.{not_a_part};

use crate::class_names::ClassNames;
use crate::ending::{refusal_at_part, uncovered_class};
use crate::explainer::JoinExplainer;
use crate::part_check::certified_part;
use crate::part_reader::{NextPart, PartText, read_part};
use crate::places::{Places, WholeProcesses};
use crate::stream::Stream;
use crate::whole::Whole;
use fx_base::{Fault, Source, refusals};
use fx_checker::AcceptedDocuments;
use fx_parts::{Join, Located, Part};
use fx_traffic::Traffic;
use std::alloc::{AllocError, Global};

/// What is looked up in the whole.
#[derive(Drop)]
struct WholeNames<'w> {
    processes: WholeProcesses<'w>,
    classes: ClassNames,
}

/// Returns what is looked up in the whole.
///
/// Fails with 900, at no place, if out of memory.
fn names_in<'w>(alloc: Global, whole: &'w Whole) -> Result<WholeNames<'w>, Fault>
    ensures { IfErr result IsMemory }
{
    let network = &whole.network;
    let processes = WholeProcesses::new(alloc, network.network(), network.net())?;
    let classes = ClassNames::new(alloc, &whole.traffic)?;
    Ok(WholeNames { processes, classes })
}

/// Marks the class of the whole that has the name of the part's class with this 1-based number, if that class covers
/// it.
///
/// Fails if out of memory.
fn cover_class(
    alloc: Global,
    names: &ClassNames,
    join: &mut Join<'_>,
    part: &Part<'_>,
    traffic: &Traffic,
    number: u64,
) -> Result<(), AllocError>
    requires { parts.IsCertifiedPart join.old.whole part.now }
    ensures more { OnOk result (JoinsMore join.old join.new) }
{
    let Some(name) = traffic.class_name(number) else {
        return Ok(());
    };
    let Some(index) = names.index_of(name) else {
        return Ok(());
    };
    join.cover(alloc, part, Located { index, number })?;
    Ok(())
}

/// Marks the classes of the whole that the classes of a certified part cover.
///
/// Fails if out of memory.
fn cover_classes(
    alloc: Global,
    names: &ClassNames,
    join: &mut Join<'_>,
    part: &Part<'_>,
    traffic: &Traffic,
) -> Result<(), AllocError>
    requires { parts.IsCertifiedPart join.old.whole part.now }
    ensures more { OnOk result (JoinsMore join.old join.new) }
{
    let count = traffic.classes().as_slice().len() as u64;
    for number in 1..=count {
        cover_class(alloc, names, join, part, traffic, number)?;
    }
    Ok(())
}

/// Joins the certified part with this 1-based number, whose collecting processes have these places in the whole.
///
/// Fails with 422 at the part if its network is not a part of the whole, and with 900 if out of memory.
fn join_at<E: JoinExplainer>(
    alloc: Global,
    names: &ClassNames,
    join: &mut Join<'_>,
    documents: &AcceptedDocuments,
    places: &[usize],
    number: u64,
    explainer: &mut E,
) -> Result<(), Fault>
    requires { IsCertified (net_of documents.now.plan) documents.now.traffic }
    ensures part { OnOk result (parts.IsPart (net_of documents.now.plan) join.old.whole
        places.now) }
    ensures more { OnOk result (JoinsMore join.old join.new) }
    ensures err { IfErr result (λ e. IsMemory e ⊎ IsAtPart not_a_part number e) }
{
    let part = Part::new(documents.plan.net(), places, documents.traffic.classes());
    if !join.has_part(&part) {
        explainer.on_foreign_part(number, documents, None);
        return Err(refusal_at_part(alloc, refusals::NOT_A_PART, number));
    }
    cover_classes(alloc, names, join, &part, &documents.traffic)?;
    Ok(())
}

/// Joins the certified part with this 1-based number.
///
/// Fails with 422 at the part if its network is not a part of the whole, and with 900 if out of memory.
fn join_documents<E: JoinExplainer>(
    alloc: Global,
    names: &WholeNames<'_>,
    join: &mut Join<'_>,
    documents: &AcceptedDocuments,
    number: u64,
    explainer: &mut E,
) -> Result<(), Fault>
    requires { IsCertified (net_of documents.now.plan) documents.now.traffic }
    ensures part { OnOk result (IsSomewhereIn join.old.whole documents.now.plan) }
    ensures more { OnOk result (JoinsMore join.old join.new) }
    ensures err { IfErr result (λ e. IsMemory e ⊎ IsAtPart not_a_part number e) }
{
    match names.processes.places_of(alloc, documents.plan.network())? {
        Places::Found(places) => join_at(
            alloc,
            &names.classes,
            join,
            documents,
            places.as_slice(),
            number,
            explainer,
        ),
        Places::Missing(missing) => {
            explainer.on_foreign_part(number, documents, Some(missing));
            Err(refusal_at_part(alloc, refusals::NOT_A_PART, number))
        }
    }
}

/// Checks the part with this 1-based number and joins it.
///
/// Fails with 421 at the part if the check refuses it; with 422 at the part if its network is not a part of the whole;
/// with 901, at no place, if one of its texts has 4,294,967,296 octets or more; and with 900 if out of memory.
fn join_part<E: JoinExplainer>(
    alloc: Global,
    names: &WholeNames<'_>,
    join: &mut Join<'_>,
    part: &PartText,
    number: u64,
    explainer: &mut E,
) -> Result<(), Fault>
    ensures part { OnOk result (IsPartText join.old.whole part.now) }
    ensures more { OnOk result (JoinsMore join.old join.new) }
    ensures err { IfErr result (λ e. IsMemory e
        ⊎ (IsEndlessPart part.now e ⊎ IsWrongPart part.now number e)) }
{
    let documents = certified_part(alloc, part, number, explainer)?;
    join_documents(alloc, names, join, &documents, number, explainer)
}

/// Joins all parts of a source.
///
/// Fails with 421 and 422 at a part, and with 801 at the part that isn't there; with 901, at no place, if a read fails,
/// the source hasn't ended after 4,294,967,296 calls or a text of a part has 4,294,967,296 octets or more; and with 900
/// if out of memory.
fn join_all<P: Source, E: JoinExplainer>(
    alloc: Global,
    names: &WholeNames<'_>,
    join: &mut Join<'_>,
    parts: &mut P,
    explainer: &mut E,
) -> Result<(), Fault>
    ensures ok { OnOk result (MayHaveLeft (P.left parts.old) (IsAllParts join.old.whole)) }
    ensures more { OnOk result (JoinsMore join.old join.new) }
    ensures err { IfErr result (λ e. IsMemory e
        ⊎ (CannotRead P.left P.calls P.failed parts.old parts.new e
        ⊎ MayHaveLeft (P.left parts.old) (λ octets. IsRefusedIn join.old.whole octets e
        ⊎ IsUnread join.old.whole octets e))) }
{
    let mut stream = Stream::new();
    let mut number = 1;
    'parts: loop {
        match read_part(alloc, &mut stream, parts)? {
            NextPart::Part(part) => join_part(alloc, names, join, &part, number, explainer)?,
            NextPart::End => return Ok(()),
            NextPart::Other => {
                explainer.on_no_part(number);
                return Err(refusal_at_part(alloc, refusals::SCHEDULE_OR_BUNDLE, number));
            }
        }
        number += 1;
    }
}

/// Returns `Ok` if the joined parts cover all classes of the whole.
///
/// Fails with 423 at the first class that no part covers, and with 900 if out of memory.
fn cover_whole<E: JoinExplainer>(
    alloc: Global,
    whole: &Whole,
    join: &Join<'_>,
    explainer: &mut E,
) -> Result<(), Fault>
    requires { length join.now.covered ≡ length join.now.classes }
    ensures ok { OnOk result (IsCounted join.now.whole join.now.classes) }
    ensures err { IfErr result (λ e. IsMemory e ⊎ IsClassAt join.now.classes e) }
{
    let Some(index) = join.first_uncovered() else {
        return Ok(());
    };
    explainer.on_uncovered_class(index, whole.network.network(), &whole.traffic);
    Err(uncovered_class(alloc, index))
}

/// Joins the parts of a whole that a source has. Returns `Ok` if they cover all its classes.
///
/// Fails with 421 and 422 at a part, with 423 at the first class of the whole that no part covers, and with 801 at the
/// part that isn't there. Fails, at no place, with 204 if links of the whole form a cycle, with 901 if a read fails,
/// the source hasn't ended after 4,294,967,296 calls or a text of a part has 4,294,967,296 octets or more, and with 900
/// if out of memory.
pub(crate) fn join_parts<P: Source, E: JoinExplainer>(
    alloc: Global,
    whole: &Whole,
    parts: &mut P,
    explainer: &mut E,
) -> Result<(), Fault>
    ensures counted { OnOk result (IsCounted (net_of whole.now.network) whole.now.traffic) }
    ensures parts { OnOk result (MayHaveLeft (P.left parts.old)
        (IsAllParts (net_of whole.now.network))) }
    ensures err { IfErr result (λ e. IsMemory e
        ⊎ (CannotRead P.left P.calls P.failed parts.old parts.new e
        ⊎ ((e ≡ fault_at link_cycle places.None)
        ⊎ MayHaveLeft (P.left parts.old) (λ octets.
        IsWrong (net_of whole.now.network) whole.now.traffic octets e
        ⊎ IsUnread (net_of whole.now.network) octets e)))) }
{
    let names = names_in(alloc, whole)?;
    let classes = whole.traffic.classes();
    let Some(mut join) = Join::new(alloc, whole.network.net(), classes)? else {
        return Err(Fault::bare(refusals::LINK_CYCLE));
    };
    join_all(alloc, &names, &mut join, parts, explainer)?;
    cover_whole(alloc, whole, &join, explainer)
}
