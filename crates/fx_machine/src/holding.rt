//! Taking of records by holders.
ghost use Rattle.std.specs.Prelude.{◌≡◌, ◌⊎◌, ◌++◌, List, [], ◌∷◌, Some, None, IfOk, IfErr, IfSome, IfNone, OnOk, OnErr};
ghost use Rattle.fx_base.specs.Fault.{fault_at, IsMemory};
ghost use Rattle.fx_base.specs.declared.fault.Place.TheVariants as faults;
ghost use Rattle.fx_base.specs.Refusals.{wrong_choices};
ghost use Rattle.fx_machine.specs.Acts as acts;
ghost use Rattle.fx_machine.specs.Holds as holds;
ghost use Rattle.fx_machine.specs.Intakes.{key_in};
ghost use Rattle.fx_machine.specs.Steps as steps;
ghost use Rattle.fx_tables.specs.Holdings.{met_holdings};
ghost use Rattle.fx_tables.specs.Network as network;
ghost use Rattle.fx_tables.specs.declared.record.Record as of_record;

use crate::intake::Intake;
use crate::records::Records;
use fx_base::{Counts, Fault, refusals};
use fx_tables::{Holding, Net, Occurrence, Packet, Record};

/// The 0-based index of a held record, and its counts before another record joined it.
#[derive(Clone, Copy, Debug)]
pub struct Joined {
    pub place: usize,
    pub counts: Counts,
}

/// What a holder took in: a new record, which is last, or one that joined another.
#[derive(Clone, Copy, Debug)]
pub struct Taking {
    pub holder: usize,
    pub joined: Option<Joined>,
}

/// Adds the counts to the held record with this 1-based number, if it exists and has the key.
fn join(
    records: &mut Vec<Record>,
    number: u64,
    intake: &Intake<'_>,
    counts: &Counts,
) -> Option<Joined>
    ensures some { IfSome result (λ j. (acts.records_joining
        (network.entry_numbered records.old.items number) records.old.items number
        (record { key = key_in intake.now; counts = counts.now }) ≡ Some records.new.items)
        × (holds.with_counts records.new.items j.place j.counts ≡ records.old.items)) }
    ensures none { IfNone result ((acts.records_joining
        (network.entry_numbered records.old.items number) records.old.items number
        (record { key = key_in intake.now; counts = counts.now }) ≡ None)
        × (records.new.items ≡ records.old.items)) }
{
    if number == 0 || number > records.len() as u64 {
        return None;
    }
    let place = (number - 1) as usize;
    let held = &mut records[place];
    if !intake.has(&held.key) {
        return None;
    }
    let before = held.counts;
    held.counts = before.add(counts);
    Some(Joined {
        place,
        counts: before,
    })
}

/// Sets the counts of the held record at this index.
fn set_counts(records: &mut Vec<Record>, joined: Joined)
    ensures { records.new.items ≡ holds.with_counts records.old.items joined.place joined.counts }
{
    if joined.place < records.len() {
        let held = &mut records[joined.place];
        held.counts = joined.counts;
    }
}

impl Records {
    /// Takes in a record with this key and these counts, either appended as a new one or added to the held record with
    /// this number.
    fn take_in(
        &mut self,
        intake: &Intake<'_>,
        counts: &Counts,
        choice: Option<u64>,
    ) -> Result<Option<Joined>, Fault>
        ensures ok { IfOk result (λ j. (acts.taken_in self.old choice
            (record { key = key_in intake.now; counts = counts.now }) ≡ Some self.new)
            × (holds.given_back j self.new ≡ self.old)) }
        ensures same { OnErr result (self.new ≡ self.old) }
        ensures err { IfErr result (λ e. IsMemory e
            ⊎ ((e ≡ fault_at wrong_choices faults.None) × (acts.taken_in self.old choice
            (record { key = key_in intake.now; counts = counts.now }) ≡ None))) }
    {
        match choice {
            None => {
                self.items.push(Record {
                    key: intake.key(),
                    counts: *counts,
                })?;
                Ok(None)
            }
            Some(number) => match join(&mut self.items, number, intake, counts) {
                None => Err(Fault::bare(refusals::WRONG_CHOICES)),
                Some(joined) => Ok(Some(joined)),
            },
        }
    }

    /// Undoes the taking of a record.
    fn give_back(&mut self, joined: Option<Joined>)
        ensures { self.new ≡ holds.given_back joined self.old }
    {
        match joined {
            None => {
                self.items.pop();
            }
            Some(joined) => set_counts(&mut self.items, joined),
        }
    }
}

/// Takes a record into a holder.
fn hold(
    held: &mut Vec<Records>,
    holder: usize,
    intake: &Intake<'_>,
    counts: &Counts,
    choice: Option<u64>,
) -> Result<Taking, Fault>
    ensures ok { IfOk result (λ t. (holds.held_with held.old.items counts.now
        (record { holder = holder; key = key_in intake.now }) choice ≡ Some held.new.items)
        × (holds.back_at held.new.items t.holder t.joined ≡ held.old.items)) }
    ensures same { OnErr result (held.new.items ≡ held.old.items) }
    ensures err { IfErr result (λ e. IsMemory e
        ⊎ ((e ≡ fault_at wrong_choices faults.None)
        × (holds.held_with held.old.items counts.now
        (record { holder = holder; key = key_in intake.now }) choice ≡ None))) }
{
    if holder >= held.len() {
        return Err(Fault::bare(refusals::WRONG_CHOICES));
    }
    let records = &mut held[holder];
    let joined = records.take_in(intake, counts, choice)?;
    Ok(Taking { holder, joined })
}

/// Undoes the taking of a record by a holder.
fn give_back(held: &mut Vec<Records>, taking: Taking)
    ensures { held.new.items ≡ holds.back_at held.old.items taking.holder taking.joined }
{
    if taking.holder < held.len() {
        let records = &mut held[taking.holder];
        records.give_back(taking.joined);
    }
}

/// Takes a record into a holder and logs it, or does neither.
fn hold_next(
    held: &mut Vec<Records>,
    log: &mut Vec<Taking>,
    holder: usize,
    intake: &Intake<'_>,
    counts: &Counts,
    choice: Option<u64>,
) -> Result<(), Fault>
    ensures ok { OnOk result ((holds.held_with held.old.items counts.now
        (record { holder = holder; key = key_in intake.now }) choice ≡ Some held.new.items)
        × (holds.undone log.new.items held.new.items ≡ holds.undone log.old.items held.old.items)) }
    ensures same { OnErr result ((held.new.items ≡ held.old.items)
        × (log.new.items ≡ log.old.items)) }
    ensures err { IfErr result (λ e. IsMemory e
        ⊎ ((e ≡ fault_at wrong_choices faults.None)
        × (holds.held_with held.old.items counts.now
        (record { holder = holder; key = key_in intake.now }) choice ≡ None))) }
{
    let taking = hold(held, holder, intake, counts, choice)?;
    if log.push(taking).is_err() {
        give_back(held, taking);
        return Err(Fault::bare(refusals::WANT_OF_MEMORY));
    }
    Ok(())
}

/// Undoes all takings of the log, the last first.
pub fn give_all_back(held: &mut Vec<Records>, log: &[Taking])
    ensures { held.new.items ≡ holds.undone log.now held.old.items }
{
    for back in 0..log.len() {
        give_back(held, log[log.len() - 1 - back]);
    }
}

/// Takes a record of these counts into each of these holders in turn, by the next choice, and sets the log to what they
/// took in, or takes in nothing.
///
/// Fails with 852 if there aren't as many choices as holders or one of them can't be made, and with 900 if out of
/// memory.
pub fn hold_all(
    held: &mut Vec<Records>,
    log: &mut Vec<Taking>,
    holdings: &[Holding],
    counts: &Counts,
    choices: &[Option<u64>],
) -> Result<(), Fault>
    ensures ok { OnOk result ((holds.hold_all counts.now holdings.now held.old.items
        choices.now ≡ Some held.new.items)
        × (holds.undone log.new.items held.new.items ≡ held.old.items)) }
    ensures same { OnErr result (held.new.items ≡ held.old.items) }
    ensures err { IfErr result (λ e. IsMemory e
        ⊎ ((e ≡ fault_at wrong_choices faults.None)
        × (holds.hold_all counts.now holdings.now held.old.items
        choices.now ≡ None))) }
{
    if holdings.len() != choices.len() {
        return Err(Fault::bare(refusals::WRONG_CHOICES));
    }
    log.clear();
    for index in 0..holdings.len() {
        let holding = &holdings[index];
        let intake = Intake::Keyed(&holding.key);
        if let Err(fault) = hold_next(held, log, holding.holder, &intake, counts, choices[index]) {
            give_all_back(held, log.as_slice());
            return Err(fault);
        }
    }
    Ok(())
}

/// Takes a record of these counts into each cache of these occurrences in turn, under the key of a packet with these
/// fields there, as [`hold_all`] does.
pub fn hold_met(
    held: &mut Vec<Records>,
    log: &mut Vec<Taking>,
    net: &Net,
    met: &[Occurrence],
    packet: &Packet,
    choices: &[Option<u64>],
) -> Result<(), Fault>
    ensures ok { OnOk result (holds.hold_all (steps.one_packet packet.now)
        (met_holdings net.now.holders packet.now.fields met.now) held.old.items
        choices.now ≡ Some held.new.items) }
    ensures same { OnErr result (held.new.items ≡ held.old.items) }
    ensures err { IfErr result (λ e. IsMemory e
        ⊎ ((e ≡ fault_at wrong_choices faults.None)
        × (holds.hold_all (steps.one_packet packet.now)
        (met_holdings net.now.holders packet.now.fields met.now) held.old.items
        choices.now ≡ None))) }
{
    if met.len() != choices.len() {
        return Err(Fault::bare(refusals::WRONG_CHOICES));
    }
    let counts = Counts {
        packets: 1,
        octets: packet.octets,
    };
    log.clear();
    for index in 0..met.len() {
        let occurrence = &met[index];
        let intake = Intake::Met {
            net,
            occurrence,
            fields: &packet.fields,
        };
        if let Err(fault) = hold_next(
            held,
            log,
            occurrence.holder,
            &intake,
            &counts,
            choices[index],
        ) {
            give_all_back(held, log.as_slice());
            return Err(fault);
        }
    }
    Ok(())
}
