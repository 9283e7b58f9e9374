// Reads the endpoint's own keys.
ghost use Rattle.std.specs.Prelude.{◌≡◌, IfOk};
ghost use Rattle.std.specs.List.{list_all};
ghost use Rattle.toml.specs.View.{table_view};
ghost use Rattle.system_stream.specs.Texts.{is_printable as is_printable_byte};
ghost use Rattle.function_blocks.specs.Endpoints.{IsEndpoint, endpoint_of, is_supported as is_protocol_of};

use crate::keys::{array, flag_at, limited_text_at, number_at, numbers_at, table_at};
use crate::rules::{Rule, SetupFault, broken};
use crate::setup::Endpoint;
use toml::Table;

// Returns whether each byte is a printable ASCII character.
fn is_printable(bytes: &[u8]) -> bool
    ensures { result ≡ list_all is_printable_byte bytes.now }
{
    bytes.iter().all(|byte| *byte >= 32 && *byte <= 126)
}

/// Returns whether `protocol` is 1 or 2 and the endpoint supports it.
pub(crate) fn is_supported(midi1: bool, midi2: bool, protocol: u32) -> bool
    ensures { result ≡ is_protocol_of midi1 midi2 protocol }
{
    (protocol == 1 && midi1) || (protocol == 2 && midi2)
}

/// Reads the endpoint's own keys by their rules, in the order of the rules.
pub(crate) fn read_endpoint(setup: &Table) -> Result<Endpoint, SetupFault>
    ensures value { result ≡ endpoint_of (table_view setup.now) }
    ensures fits { IfOk result IsEndpoint }
{
    let table = table_at(setup, "endpoint").ok_or(broken(Rule::EndpointIsATable))?;
    let name = limited_text_at(table, "name").ok_or(broken(Rule::NameIsShort))?;
    let id = limited_text_at(table, "id").ok_or(broken(Rule::IdIsPrintable))?;
    if !is_printable(id.as_slice()) {
        return Err(broken(Rule::IdIsPrintable));
    }
    let manufacturer = numbers_at(table, "manufacturer", 127).ok_or(broken(
        Rule::ManufacturerIsThreeNumbers,
    ))?;
    let family = number_at(table, "family", 0, 16_383).ok_or(broken(Rule::FamilyIsInRange))?;
    let model = number_at(table, "model", 0, 16_383).ok_or(broken(Rule::ModelIsInRange))?;
    let revision = numbers_at(table, "revision", 127).ok_or(broken(Rule::RevisionIsFourNumbers))?;
    let midi1 = flag_at(table, "midi1").ok_or(broken(Rule::SomeProtocolIsThere))?;
    let midi2 = flag_at(table, "midi2").ok_or(broken(Rule::SomeProtocolIsThere))?;
    if !midi1 && !midi2 {
        return Err(broken(Rule::SomeProtocolIsThere));
    }
    let protocol = number_at(table, "protocol", 1, 2).ok_or(broken(Rule::ProtocolIsThere))?;
    if !is_supported(midi1, midi2, protocol) {
        return Err(broken(Rule::ProtocolIsThere));
    }
    let fixed = flag_at(table, "static").ok_or(broken(Rule::StaticIsAFlag))?;
    Ok(Endpoint {
        name,
        id,
        manufacturer: array(&manufacturer),
        family: family as u16,
        model: model as u16,
        revision: array(&revision),
        midi1,
        midi2,
        protocol: protocol as u8,
        fixed,
    })
}
