//! Laws of the definitions of sets and streams.
ghost use Rattle.std.specs.Prelude.{◌≡◌, ◌≤◌, ◌↔◌, ℕ, List, Result};
ghost use Rattle.fx_wire.specs.Values as values;
ghost use Rattle.fx_wire.specs.declared.field.FieldSpecifier as of_field;
ghost use Rattle.fx_wire.specs.declared.template.TemplateKind as of_kind;
ghost use Rattle.fx_session.specs.ByCases as cases;
ghost use Rattle.fx_session.specs.DataSets as data_sets;
ghost use Rattle.fx_session.specs.Messages as messages;
ghost use Rattle.fx_session.specs.Streams as streams;
ghost use Rattle.fx_session.specs.TemplateSets as template_sets;
ghost use Rattle.fx_session.specs.Templates as of_templates;
ghost use Rattle.fx_session.specs.declared.stream_fault.StreamFault as of_fault;

/// States that the records of sets and the messages of streams are exactly those that the cases describe: defining them
/// by functions that count their turns changes nothing.
pub fn sets_by_cases()
    ensures flows { (fields : List of_field.FieldSpecifier) (taken : data_sets.Taken)
        (octets : List ℕ)
        (result : Result data_sets.Taken of_fault.StreamFault) → 1 ≤ values.shortest_record fields
        → cases.AreFlowRecords fields taken octets result
        ↔ (result ≡ data_sets.flow_set fields taken octets) }
    ensures options { (fields : List of_field.FieldSpecifier) (taken : data_sets.Taken)
        (octets : List ℕ)
        (result : Result data_sets.Taken of_fault.StreamFault) → 1 ≤ values.shortest_record fields
        → cases.AreOptionRecords fields taken octets result
        ↔ (result ≡ data_sets.option_set fields taken octets) }
    ensures templates { (kind : of_kind.TemplateKind) (live : of_templates.Templates)
        (octets : List ℕ)
        (result : Result of_templates.Templates of_fault.StreamFault)
        → cases.AreTemplateRecords kind live octets result
        ↔ (result ≡ template_sets.template_set live kind octets) }
    ensures messages { (known : messages.Known) (place : ℕ) (octets : List ℕ)
        (standing : streams.SessionState)
        → cases.AreMessages known place octets standing
        ↔ (standing ≡ streams.read_all known place octets) }
{}
