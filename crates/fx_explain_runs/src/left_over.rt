//! What remains at the end of a run that isn't complete.
use fx_config::CollectingProcess;
use fx_explanation::{Documents, Explanation, write_numbered};
use fx_machine::State;
use fx_plan::Plan;
use fx_tables::{Crossing, HolderName};
use fx_topology::{NamedLink, NetworkDevice};

/// The maximum number of crossings that are written.
const SHOWN: u64 = 20;

/// The end of a run.
#[derive(Drop)]
struct End<'a, 'b> {
    state: &'a State<'b>,
    /// The number of crossings that remain.
    to_come: u64,
}

impl End<'_, '_> {
    /// Writes which crossings of the packet with this number remain, up to the maximum, with a text before each.
    fn write_to_come(
        &mut self,
        out: &mut Explanation,
        plan: &Plan,
        packet: u64,
        crossings: &[Crossing],
        is_numbered: bool,
    ) {
        for index in 0..crossings.len() {
            let number = index as u64 + 1;
            if self.state.is_to_come(packet, number) {
                self.to_come = self.to_come.saturating_add(1);
                if self.to_come <= SHOWN {
                    if is_numbered {
                        out.text_number("packet ", packet);
                        out.text(": ");
                    }
                    write_numbered(out, plan, number, &crossings[index]);
                    out.sentence(" is still to come");
                }
            }
        }
    }

    /// Writes which crossings of packets remain.
    fn write_all_to_come(&mut self, out: &mut Explanation, documents: &Documents<'_>) {
        let packets = self.state.packets();
        let is_numbered = packets.len() > 1;
        for index in 0..packets.len() {
            let crossings = documents.traffic.classes().path_of(&packets[index]);
            self.write_to_come(
                out,
                documents.plan,
                index as u64 + 1,
                crossings,
                is_numbered,
            );
        }
        if self.to_come > SHOWN {
            out.text_number(
                "other crossings that are still to come: ",
                self.to_come.saturating_sub(SHOWN),
            );
            out.end_line();
        }
    }

    /// Returns how many records a cache or an aggregation still has.
    fn held(&self, name: HolderName) -> u64 {
        let index = self.state.net().holder_place(name);
        self.state.records_held(index.unwrap_or(usize::MAX))
    }

    /// Writes the records that remain in the caches of the device with this number.
    fn write_caches(&self, out: &mut Explanation, device: &NetworkDevice, number: u64) {
        let caches = device.config.caches.as_slice();
        for index in 0..caches.len() {
            let cache = index as u64 + 1;
            let count = self.held(HolderName::Cache {
                device: number,
                cache,
            });
            if count > 0 {
                out.text_quoted("cache ", caches[index].name.as_str());
                out.text(" of ");
                out.text(device.name.as_str());
                out.text_number(" still holds records: ", count);
                out.text_number("; the first leaves by a line expire cache ", number);
                out.text_number(" ", cache);
                out.sentence(" 1 CHOICES");
            }
        }
    }

    /// Writes the records that remain in the aggregations of the collecting process with this number on its device.
    fn write_aggregations(
        &self,
        out: &mut Explanation,
        process: &CollectingProcess,
        device: u64,
        number: u64,
    ) {
        let aggregations = process.aggregations.as_slice();
        for index in 0..aggregations.len() {
            let aggregation = index as u64 + 1;
            let count = self.held(HolderName::Aggregation {
                device,
                process: number,
                aggregation,
            });
            if count > 0 {
                out.text_quoted("aggregation ", aggregations[index].name.as_str());
                out.text_quoted(" of collecting process ", process.name.as_str());
                out.text_number(" still holds records: ", count);
                out.text_number("; the first leaves by a line expire aggregation ", device);
                out.text_number(" ", number);
                out.text_number(" ", aggregation);
                out.sentence(" 1 CHOICES");
            }
        }
    }

    /// Writes the records that remain in the aggregations of the device with this number.
    fn write_processes(&self, out: &mut Explanation, device: &NetworkDevice, number: u64) {
        let processes = device.config.collecting_processes.as_slice();
        for index in 0..processes.len() {
            self.write_aggregations(out, &processes[index], number, index as u64 + 1);
        }
    }

    /// Writes the records that remain on links.
    fn write_links(&self, out: &mut Explanation, links: &[NamedLink]) {
        for index in 0..links.len() {
            let count = self.state.records_on(index);
            if count > 0 {
                out.text_quoted(
                    "on the link to collecting process ",
                    links[index].to_process.as_str(),
                );
                out.text(" of ");
                out.text(links[index].to_device.as_str());
                out.text_number(" are still records: ", count);
                out.text_number("; the first arrives by a line arrive ", index as u64 + 1);
                out.sentence(" 1 CHOICES");
            }
        }
    }
}

/// Writes what a run with this last state leaves undone: which crossings remain, the first 20 of them, and which
/// records are held or on links.
pub(crate) fn write_undone(out: &mut Explanation, documents: &Documents<'_>, last: &State<'_>) {
    let mut end = End {
        state: last,
        to_come: 0,
    };
    end.write_all_to_come(out, documents);
    let network = documents.plan.network();
    let devices = network.devices.as_slice();
    for index in 0..devices.len() {
        let number = index as u64 + 1;
        end.write_caches(out, &devices[index], number);
        end.write_processes(out, &devices[index], number);
    }
    end.write_links(out, network.links.as_slice());
}
