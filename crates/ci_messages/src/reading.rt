// Reads the bytes of a message as a view.
ghost use Rattle.std.specs.Prelude.{
  ◌≡◌,
  ◌≤◌,
  ◌<◌,
  ◌+◌,
  ◌*◌,
  [],
  ◌∷◌,
  length,
  not,
  option_map,
  IfSome,
  MatchOption,
};
ghost use Rattle.ci_messages.specs.declared.kind.Format.{Format};
ghost use Rattle.ci_messages.specs.declared.kind.Format.TheVariants as formats;
ghost use Rattle.ci_messages.specs.declared.kind.Kind.TheVariants as kind;
ghost use Rattle.ci_messages.specs.Positions.{part_at, number2_at};
ghost use Rattle.ci_messages.specs.Fields.{IsData, bytes, list, nothing, number, reserved};
ghost use Rattle.ci_messages.specs.Messages.{block_in, channels_in, full_only, path_in};
ghost use Rattle.ci_messages.specs.Reading.{
  IsExclusive,
  Reads,
  ReadsBody,
  ReadsFields,
  address_of,
  body_of,
  is_not_ci,
};

use crate::kind::{Format, Kind};
use crate::muid::is_reserved;
use crate::positions::{array, number_of_four, number_of_two, part, profile_id};
use crate::view::{Address, Body, CiFault, CiView, NO_BLOCK, ProfileId};
use voice_messages::U4;

/// The position at which the body begins.
const BODY: usize = 14;

/// The number of bytes of a message without a body: the bytes before the body, and F7.
const SHORTEST: usize = 15;

// Returns the address that a number stands for, or `None` exactly if the number is no address.
fn address(number: u8) -> Option<Address>
    ensures { result ≡ address_of number }
{
    match number {
        0x7E => Some(Address::Group),
        0x7F => Some(Address::Block),
        _ => U4::new(number).map(Address::Channel),
    }
}

// Returns the output path id of a Discovery.
fn path(format: Format, body: &[u8]) -> Option<u8>
    ensures { ReadsFields (path_in format ∷ []) body.now 16 (option_map (λ path. number path ∷ []) result) }
{
    match format {
        Format::Short => {
            if body.len() < 16 {
                return None;
            }
            Some(0)
        }
        Format::Full => body.get(16).copied(),
    }
}

fn discovery<'a>(format: Format, body: &'a [u8]) -> Option<Body<'a>>
    ensures { ReadsBody format kind.Discovery body.now result }
{
    let path = path(format, body)?;
    Some(Body::Discovery {
        manufacturer: array(body, 0),
        family: array(body, 3),
        model: array(body, 5),
        revision: array(body, 7),
        category: body[11],
        size: number_of_four(body, 12),
        path,
    })
}

// Returns the output path id and the function block of a Reply to Discovery.
fn path_and_block(format: Format, body: &[u8]) -> Option<(u8, u8)>
    ensures { ReadsFields (path_in format ∷ block_in format ∷ []) body.now 16
        (option_map (λ end. number end.0 ∷ number end.1 ∷ []) result) }
{
    match format {
        Format::Short => {
            if body.len() < 16 {
                return None;
            }
            Some((0, NO_BLOCK))
        }
        Format::Full => {
            if body.len() < 18 {
                return None;
            }
            Some((body[16], body[17]))
        }
    }
}

fn discovery_reply<'a>(format: Format, body: &'a [u8]) -> Option<Body<'a>>
    ensures { ReadsBody format kind.DiscoveryReply body.now result }
{
    let (path, block) = path_and_block(format, body)?;
    Some(Body::DiscoveryReply {
        manufacturer: array(body, 0),
        family: array(body, 3),
        model: array(body, 5),
        revision: array(body, 7),
        category: body[11],
        size: number_of_four(body, 12),
        path,
        block,
    })
}

fn endpoint_inquiry<'a>(body: &'a [u8]) -> Option<Body<'a>>
    ensures { (form : Format) → ReadsBody form kind.EndpointInquiry body.now result }
{
    let status = *body.first()?;
    Some(Body::EndpointInquiry { status })
}

// Returns the items of `size` bytes each that follow their count at position `at`. Returns `None` exactly if
// the bytes end too early.
fn counted<'a>(body: &'a [u8], at: usize, size: usize) -> Option<&'a [u8]>
    requires place { at ≤ length body.now }
    requires size { size ≤ 5 }
    ensures { MatchOption result
        (length body.now < 2 + size * number2_at body.now at + at)
        (λ items. (2 + size * number2_at body.now at + at ≤ length body.now)
        × (items.now ≡ part_at body.now (at + 2) (size * number2_at body.now at))) }
{
    if body.len() - at < 2 {
        return None;
    }
    let length = size * number_of_two(body, at) as usize;
    if body.len() - at < 2 + length {
        return None;
    }
    Some(part(body, at + 2, length))
}

fn endpoint_reply<'a>(body: &'a [u8]) -> Option<Body<'a>>
    ensures { (form : Format) → ReadsBody form kind.EndpointReply body.now result }
{
    let status = *body.first()?;
    let text = counted(body, 1, 1)?;
    Some(Body::EndpointReply { status, text })
}

fn invalidate<'a>(body: &'a [u8]) -> Option<Body<'a>>
    ensures { (form : Format) → ReadsBody form kind.Invalidate body.now result }
{
    if body.len() < 4 {
        return None;
    }
    Some(Body::Invalidate {
        target: number_of_four(body, 0),
    })
}

// The body of a NAK in the short format.
const SHORT_NAK: Body<'static> = Body::Nak {
    original: 0,
    code: 0,
    value: 0,
    details: [0; 5],
    text: &[],
};

fn full_nak<'a>(body: &'a [u8]) -> Option<Body<'a>>
    ensures { ReadsBody formats.Full kind.Nak body.now result }
{
    if body.len() < 8 {
        return None;
    }
    let text = counted(body, 8, 1)?;
    Some(Body::Nak {
        original: body[0],
        code: body[1],
        value: body[2],
        details: array(body, 3),
        text,
    })
}

fn nak<'a>(format: Format, body: &'a [u8]) -> Option<Body<'a>>
    ensures { ReadsBody format kind.Nak body.now result }
{
    match format {
        Format::Short => Some(SHORT_NAK),
        Format::Full => full_nak(body),
    }
}

fn profile_reply<'a>(body: &'a [u8]) -> Option<Body<'a>>
    ensures { (form : Format) → ReadsBody form kind.ProfileReply body.now result }
{
    let on = counted(body, 0, 5)?;
    let off = counted(body, 2 + on.len(), 5)?;
    Some(Body::ProfileReply { on, off })
}

// Returns a profile's id and the number of channels.
fn switch(format: Format, body: &[u8]) -> Option<(ProfileId, u16)>
    requires { IsData body.now }
    ensures { ReadsFields (bytes 5 ∷ channels_in format ∷ []) body.now 0
        (option_map (λ switch. list switch.0.bytes ∷ number switch.1 ∷ []) result) }
{
    match format {
        Format::Short => {
            if body.len() < 5 {
                return None;
            }
            Some((profile_id(body, 0), 0))
        }
        Format::Full => {
            if body.len() < 7 {
                return None;
            }
            Some((profile_id(body, 0), number_of_two(body, 5) as u16))
        }
    }
}

fn set_off<'a>(format: Format, body: &'a [u8]) -> Option<Body<'a>>
    requires { IsData body.now }
    ensures { ReadsBody format kind.SetOff body.now result }
{
    let size = match format {
        Format::Short => 5,
        Format::Full => 7,
    };
    if body.len() < size {
        return None;
    }
    Some(Body::SetOff {
        id: profile_id(body, 0),
    })
}

// Returns the body of a message of this kind. Returns `None` exactly if the body ends before its fields do.
fn body_of_kind<'a>(format: Format, kind: Kind, body: &'a [u8]) -> Option<Body<'a>>
    requires { IsData body.now }
    ensures { ReadsBody format kind body.now result }
{
    match kind {
        Kind::Discovery => discovery(format, body),
        Kind::DiscoveryReply => discovery_reply(format, body),
        Kind::EndpointInquiry => endpoint_inquiry(body),
        Kind::EndpointReply => endpoint_reply(body),
        Kind::Invalidate => invalidate(body),
        Kind::Nak => nak(format, body),
        Kind::ProfileInquiry => Some(Body::ProfileInquiry),
        Kind::ProfileReply => profile_reply(body),
        Kind::SetOn => {
            let (id, channels) = switch(format, body)?;
            Some(Body::SetOn { id, channels })
        }
        Kind::SetOff => set_off(format, body),
        Kind::EnabledReport => {
            let (id, channels) = switch(format, body)?;
            Some(Body::EnabledReport { id, channels })
        }
        Kind::DisabledReport => {
            let (id, channels) = switch(format, body)?;
            Some(Body::DisabledReport { id, channels })
        }
        Kind::Property => Some(Body::Property(body)),
        Kind::Other => Some(Body::Other(body)),
    }
}

// Returns whether an exclusive is universal, non-realtime and for MIDI-CI.
fn is_ci(message: &[u8]) -> bool
    ensures { result ≡ not (is_not_ci message.now) }
{
    message.len() >= 6 && message[1] == 0x7E && message[3] == 0x0D
}

// Returns the bytes between the destination and F7.
fn body_bytes(message: &[u8]) -> &[u8]
    requires exclusive { IsExclusive message.now }
    requires long_enough { 15 ≤ length message.now }
    ensures bytes { result.now ≡ body_of message.now }
    ensures data_bytes { IsData result.now }
{
    &message[BODY..message.len() - 1]
}

/// Reads a message (M2-101-UM) from an exclusive, which has data bytes between F0 and F7. The view borrows
/// the texts, lists and unread bytes of the exclusive. Bytes after the fields of a body are ignored. For
/// example, an exclusive of the five bytes F0 7E 7F 0D F7 is `NotCi`, because it has fewer than 6.
///
/// Returns the first of these faults that applies:
/// - `NotCi`: there are fewer than 6 bytes, or byte 2 (F0 is byte 1) isn't 7E, or byte 4 isn't 0D;
/// - `Short`: there are fewer than 15 bytes, or the version is 1 or more and the body ends before its fields
///   do;
/// - `BadAddress`: the address is none of 00 to 0F, 7E and 7F;
/// - `ReservedMuid`: the source is 0FFFFF00 or above.
///
/// A version above 02 is kept, and its messages are read as those of version 02. Messages of version 01 are
/// read in the short forms that `Body` lists, and the body of a message of version 00 is `Other` (own rules).
pub fn read<'a>(message: &'a [u8]) -> Result<CiView<'a>, CiFault>
    requires { IsExclusive message.now }
    ensures { Reads message.now result }
{
    if !is_ci(message) {
        return Err(CiFault::NotCi);
    }
    if message.len() < SHORTEST {
        return Err(CiFault::Short);
    }
    let sub = message[4];
    let version = message[5];
    let format = Format::of(version);
    let kind = Kind::of(sub, version);
    let Some(body) = body_of_kind(format, kind, body_bytes(message)) else {
        return Err(CiFault::Short);
    };
    let Some(address) = address(message[2]) else {
        return Err(CiFault::BadAddress);
    };
    let source = number_of_four(message, 6);
    if is_reserved(source) {
        return Err(CiFault::ReservedMuid);
    }
    Ok(CiView {
        address,
        sub,
        version,
        source,
        destination: number_of_four(message, 10),
        body,
    })
}
