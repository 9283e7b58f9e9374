// Writes a view as the bytes of its message.
ghost use Rattle.std.specs.Prelude.{◌≡◌, ◌<◌, ◌≤◌, ◌+◌, ◌/◌, ◌^◌, [], ◌∷◌, ◌++◌, length, Result, IsOkAnd};
ghost use Rattle.ci_messages.specs.declared.kind.Kind.TheVariants as kind;
ghost use Rattle.ci_messages.specs.declared.view.CiFault.{CiFault};
ghost use Rattle.ci_messages.specs.declared.view.CiView.{CiView};
ghost use Rattle.ci_messages.specs.Fields.{bytes, bytes_of_fields, list, nothing, number};
ghost use Rattle.ci_messages.specs.Messages.{block_in, body_kind, channels_in, fields_of, path_in};
ghost use Rattle.ci_messages.specs.Positions.{bytes2, bytes4};
ghost use Rattle.ci_messages.specs.Reading.{Reads};
ghost use Rattle.ci_messages.specs.Writing.{
  FitsBody,
  IsView,
  SameView,
  address_number,
  body_bytes,
  message_bytes,
};

use crate::kind::Format;
use crate::laws::written_messages_are_read_again;
use crate::view::{Address, Body, CiView, ProfileId};
use small_types::ShortList;
use voice_messages::{END_OF_EXCLUSIVE, START_OF_EXCLUSIVE};

/// The bytes of a message, from F0 to F7.
type Message = ShortList<u8, 512>;

fn put_two(number: u32, into: &mut Message)
    requires fits { number < 2 ^ 14 }
    requires capacity { length into.old + 2 ≤ 512 }
    ensures { into.new ≡ into.old ++ bytes2 number }
{
    into.push((number % 128) as u8);
    into.push((number / 128) as u8);
}

fn put_four(number: u32, into: &mut Message)
    requires fits { number < 2 ^ 28 }
    requires capacity { length into.old + 4 ≤ 512 }
    ensures { into.new ≡ into.old ++ bytes4 number }
{
    put_two(number % 16384, into);
    put_two(number / 16384, into);
}

// Writes the count of items of `size` bytes each, and then the items.
fn put_counted(items: &[u8], size: usize, into: &mut Message)
    requires size { 0 < size }
    requires capacity { length into.old + 2 + length items.now ≤ 512 }
    ensures { into.new ≡ into.old ++ (bytes2 (length items.now / size) ++ items.now) }
{
    put_two((items.len() / size) as u32, into);
    into.extend(items);
}

// Writes the identity of a device.
fn put_identity(
    manufacturer: &[u8; 3],
    family: &[u8; 2],
    model: &[u8; 2],
    revision: &[u8; 4],
    into: &mut Message,
)
    requires { length into.old + 11 ≤ 512 }
    ensures { into.new ≡ into.old ++ (manufacturer.now ++ (family.now ++ (model.now ++ revision.now))) }
{
    into.extend(manufacturer);
    into.extend(family);
    into.extend(model);
    into.extend(revision);
}

// Writes the output path id of a Discovery, if the format has that field.
fn put_path(format: Format, path: u8, into: &mut Message)
    requires { length into.old + length (bytes_of_fields (path_in format ∷ []) (number path ∷ [])) ≤ 512 }
    ensures { into.new ≡ into.old ++ bytes_of_fields (path_in format ∷ []) (number path ∷ []) }
{
    match format {
        Format::Short => {}
        Format::Full => into.push(path),
    }
}

// Writes the output path id and the block of a Reply to Discovery, if the format has these fields.
fn put_path_and_block(format: Format, path: u8, block: u8, into: &mut Message)
    requires { length into.old + length (bytes_of_fields (path_in format ∷ block_in format ∷ [])
        (number path ∷ number block ∷ [])) ≤ 512 }
    ensures { into.new ≡ into.old ++ bytes_of_fields (path_in format ∷ block_in format ∷ [])
        (number path ∷ number block ∷ []) }
{
    match format {
        Format::Short => {}
        Format::Full => {
            into.push(path);
            into.push(block);
        }
    }
}

// Says which message a NAK answers, and why.
#[derive(Clone, Copy, Debug, PartialEq, Eq)]
struct NakReason {
    original: u8,
    code: u8,
    value: u8,
}

// Writes the fields of a NAK, if the format has these fields.
fn put_nak(format: Format, reason: NakReason, details: &[u8; 5], text: &[u8], into: &mut Message)
    requires { length into.old + length (bytes_of_fields (fields_of format kind.Nak)
        (number reason.original ∷ number reason.code ∷ number reason.value
        ∷ list details.now ∷ list text.now ∷ [])) ≤ 512 }
    ensures { into.new ≡ into.old ++ bytes_of_fields (fields_of format kind.Nak)
        (number reason.original ∷ number reason.code ∷ number reason.value
        ∷ list details.now ∷ list text.now ∷ []) }
{
    match format {
        Format::Short => {}
        Format::Full => {
            into.push(reason.original);
            into.push(reason.code);
            into.push(reason.value);
            into.extend(details);
            put_counted(text, 1, into);
        }
    }
}

// Writes a profile's id, and the number of channels if the format has that field.
fn put_switch(format: Format, id: &ProfileId, channels: u16, into: &mut Message)
    requires fits { channels < 2 ^ 14 }
    requires capacity { length into.old + length (bytes_of_fields (bytes 5 ∷ channels_in format ∷ [])
        (list id.now.bytes ∷ number channels ∷ [])) ≤ 512 }
    ensures { into.new ≡ into.old ++ bytes_of_fields (bytes 5 ∷ channels_in format ∷ [])
        (list id.now.bytes ∷ number channels ∷ []) }
{
    into.extend(&id.data_bytes());
    match format {
        Format::Short => {}
        Format::Full => put_two(u32::from(channels), into),
    }
}

// Writes a profile's id, and two reserved bytes if the format has them.
fn put_set_off(format: Format, id: &ProfileId, into: &mut Message)
    requires { length into.old + length (bytes_of_fields (fields_of format kind.SetOff)
        (list id.now.bytes ∷ nothing ∷ [])) ≤ 512 }
    ensures { into.new ≡ into.old ++ bytes_of_fields (fields_of format kind.SetOff)
        (list id.now.bytes ∷ nothing ∷ []) }
{
    into.extend(&id.data_bytes());
    match format {
        Format::Short => {}
        Format::Full => put_two(0, into),
    }
}

// Writes the fields with which a Discovery and the reply to it begin.
fn put_device(
    manufacturer: &[u8; 3],
    family: &[u8; 2],
    model: &[u8; 2],
    revision: &[u8; 4],
    category: u8,
    size: u32,
    into: &mut Message,
)
    requires fits { size < 2 ^ 28 }
    requires capacity { length into.old + 16 ≤ 512 }
    ensures { into.new ≡ into.old ++ (manufacturer.now ++ (family.now ++ (model.now ++ (revision.now
        ++ (category ∷ [] ++ bytes4 size))))) }
{
    put_identity(manufacturer, family, model, revision, into);
    into.push(category);
    put_four(size, into);
}

fn put_body(format: Format, body: &Body<'_>, into: &mut Message)
    requires fits { FitsBody format body.now }
    requires capacity { length into.old + length (body_bytes format body.now) ≤ 512 }
    ensures { into.new ≡ into.old ++ body_bytes format body.now }
{
    match body {
        Body::Discovery {
            manufacturer,
            family,
            model,
            revision,
            category,
            size,
            path,
        } => {
            put_device(
                manufacturer,
                family,
                model,
                revision,
                *category,
                *size,
                into,
            );
            put_path(format, *path, into);
        }
        Body::DiscoveryReply {
            manufacturer,
            family,
            model,
            revision,
            category,
            size,
            path,
            block,
        } => {
            put_device(
                manufacturer,
                family,
                model,
                revision,
                *category,
                *size,
                into,
            );
            put_path_and_block(format, *path, *block, into);
        }
        Body::EndpointInquiry { status } => into.push(*status),
        Body::EndpointReply { status, text } => {
            into.push(*status);
            put_counted(text, 1, into);
        }
        Body::Invalidate { target } => put_four(*target, into),
        Body::Nak {
            original,
            code,
            value,
            details,
            text,
        } => {
            let reason = NakReason {
                original: *original,
                code: *code,
                value: *value,
            };
            put_nak(format, reason, details, text, into);
        }
        Body::ProfileInquiry => {}
        Body::ProfileReply { on, off } => {
            put_counted(on, 5, into);
            put_counted(off, 5, into);
        }
        Body::SetOn { id, channels } => put_switch(format, id, *channels, into),
        Body::SetOff { id } => put_set_off(format, id, into),
        Body::EnabledReport { id, channels } => put_switch(format, id, *channels, into),
        Body::DisabledReport { id, channels } => put_switch(format, id, *channels, into),
        Body::Property(bytes) => into.extend(bytes),
        Body::Other(bytes) => into.extend(bytes),
    }
}

fn number_of(address: Address) -> u8
    ensures { result ≡ address_number address }
{
    match address {
        Address::Channel(channel) => channel.get(),
        Address::Group => 0x7E,
        Address::Block => 0x7F,
    }
}

/// Writes the bytes of a message (M2-101-UM), from F0 to F7, into an empty list. Reserved bytes are zeros.
///
/// The caller ensures that the version is 1 to 127, the body is the one that the sub-id and version name,
/// each number fits its bytes, borrowed bytes are data bytes, and a list of profiles has five bytes for each.
/// In version 01, the fields that aren't in the message must have the values that `Body` lists. The message
/// must have at most 512 bytes. If the source is below 0FFFFF00, the message is read back as the same view.
pub fn write(view: &CiView<'_>, into: &mut ShortList<u8, 512>)
    requires view { IsView view.now }
    requires version { 1 ≤ view.now.version }
    requires fits { length (message_bytes view.now) ≤ 512 }
    requires empty { into.old ≡ [] }
    ensures bytes { into.new ≡ message_bytes view.now }
    ensures read_again { view.now.source < 0x0FFFFF00 → (answer : Result CiView CiFault) →
        Reads into.new answer → IsOkAnd answer (SameView view.now) }
{
    written_messages_are_read_again();
    into.extend(&[START_OF_EXCLUSIVE, 0x7E, number_of(view.address), 0x0D]);
    into.push(view.sub);
    into.push(view.version);
    put_four(view.source, into);
    put_four(view.destination, into);
    put_body(Format::of(view.version), &view.body, into);
    into.push(END_OF_EXCLUSIVE);
}
