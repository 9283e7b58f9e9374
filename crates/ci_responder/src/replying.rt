// The replies to messages.
ghost use Rattle.std.specs.Prelude.{◌≡◌, ◌<◌, ◌≤◌, ◌==◌, Some, false, if◌then◌else◌};
ghost use Rattle.ci_messages.specs.declared.view.Body.TheVariants as body;
ghost use Rattle.ci_messages.specs.Fields.{FitsField, byte, bytes_of_field, number};
ghost use Rattle.ci_messages.specs.Messages.{channels_in, format_of, full_only};
ghost use Rattle.ci_messages.specs.Writing.{IsView, channels_of};
ghost use Rattle.ci_responder.specs.Held.{sender_of};
ghost use Rattle.ci_responder.specs.Messages.{
  discovery,
  endpoint,
  viewed_message,
  profiles,
  switch,
  received_of,
};
ghost use Rattle.ci_responder.specs.Replies.{
  reply_row,
  invalidation,
  message_of_payload,
  message_of_reply,
  nak,
  reply_version as reply_version_of,
};

use crate::message::CiMessage;
use crate::owner::Owner;
use crate::profiles::{ids_at, place_of};
use crate::responder::Responder;
use ci_messages::{
    Address, BROADCAST, Body, CiView, Format, NO_BLOCK, PROFILE_CONFIGURATION, ProfileId,
};
use function_blocks::Identity;

// Returns the version of the reply: 01 for a message of version 01, otherwise 02 (own rule).
fn reply_version(view: &CiView<'_>) -> u8
    ensures value { result ≡ reply_version_of (viewed_message view.now) }
    ensures least { 1 ≤ result }
    ensures most { result ≤ 2 }
{
    match Format::of(view.version) {
        Format::Short => 1,
        Format::Full => 2,
    }
}

// Returns the value of a field, or `otherwise` if messages of version 01 don't have that field.
fn placed(version: u8, value: u8, otherwise: u8) -> u8
    requires { value < 128 }
    ensures fits { FitsField (full_only (format_of version) byte (number otherwise)) (number result) }
    ensures bytes { bytes_of_field (full_only (format_of version) byte (number otherwise)) (number result)
        ≡ bytes_of_field (full_only (format_of version) byte (number otherwise)) (number value) }
{
    match Format::of(version) {
        Format::Short => otherwise,
        Format::Full => value,
    }
}

// Returns the number of channels for a report: that of the address, or 0 if messages of version 01 don't have
// that field (own rule).
fn channels_told(version: u8, address: Address) -> u16
    ensures fits { FitsField (channels_in (format_of version)) (number result) }
    ensures bytes { bytes_of_field (channels_in (format_of version)) (number result)
        ≡ bytes_of_field (channels_in (format_of version)) (number (channels_of address)) }
{
    match Format::of(version) {
        Format::Short => 0,
        Format::Full => address.channels(),
    }
}

// Returns the body of a report that a profile is enabled or disabled.
fn report_of(id: ProfileId, channels: u16, on: bool) -> Body<'static>
    ensures { result ≡ (if on then body.EnabledReport id channels else body.DisabledReport id channels) }
{
    if on {
        Body::EnabledReport { id, channels }
    } else {
        Body::DisabledReport { id, channels }
    }
}

impl Responder {
    /// Creates an Invalidate MUID message for the block's own MUID, at address 7F, to broadcast (M2-101-UM).
    pub(crate) fn invalidate(&self, owner: &Owner, view: &CiView<'_>) -> CiMessage
        ensures { result ≡ message_of_payload
            (invalidation (sender_of self.now owner.now.block owner.now.muid) (viewed_message view.now)) }
    {
        let version = reply_version(view);
        let body = Body::Invalidate {
            target: owner.muid.get(),
        };
        CiMessage::new(&CiView {
            address: Address::Block,
            sub: body.sub(),
            version,
            source: owner.muid.get(),
            destination: BROADCAST,
            body,
        })
    }

    /// Creates a NAK at the message's address, with the message's sub-id and nine zero bytes (M2-101-UM).
    pub(crate) fn nak(&self, owner: &Owner, view: &CiView<'_>) -> CiMessage
        requires { IsView view.now }
        ensures { result ≡ message_of_payload
            (nak (sender_of self.now owner.now.block owner.now.muid) (viewed_message view.now)) }
    {
        let version = reply_version(view);
        let original = placed(version, view.sub, 0);
        let body = Body::Nak {
            original,
            code: 0,
            value: 0,
            details: [0; 5],
            text: &[],
        };
        CiMessage::new(&CiView {
            address: view.address,
            sub: body.sub(),
            version,
            source: owner.muid.get(),
            destination: view.source,
            body,
        })
    }

    /// Creates the reply to a Discovery, at address 7F (M2-101-UM). It has the identity of the device, the
    /// category of profiles, the largest System Exclusive message that the responder accepts, the path and
    /// the block's number.
    pub(crate) fn tell_device(&self, owner: &Owner, view: &CiView<'_>, path: u8) -> CiMessage
        requires view { IsView view.now }
        requires path { path < 128 }
        ensures { Some result ≡ message_of_reply
            (reply_row (sender_of self.now owner.now.block owner.now.muid)
            (received_of owner.now.group view.now) (discovery path)) }
    {
        let Identity {
            manufacturer,
            family,
            model,
            revision,
        } = self.identity;
        let version = reply_version(view);
        let path = placed(version, path, 0);
        let block = placed(version, owner.block, NO_BLOCK);
        let body = Body::DiscoveryReply {
            manufacturer,
            family,
            model,
            revision,
            category: PROFILE_CONFIGURATION,
            size: self.room,
            path,
            block,
        };
        CiMessage::new(&CiView {
            address: Address::Block,
            sub: body.sub(),
            version,
            source: owner.muid.get(),
            destination: view.source,
            body,
        })
    }

    /// Creates the reply to an inquiry of the endpoint, at the same address: the product instance id
    /// (M2-101-UM). Version 01 doesn't have this inquiry.
    pub(crate) fn tell_product_id(&self, owner: &Owner, view: &CiView<'_>) -> CiMessage
        requires view { IsView view.now }
        requires version { (view.now.version == 1) ≡ false }
        ensures { Some result ≡ message_of_reply
            (reply_row (sender_of self.now owner.now.block owner.now.muid)
            (received_of owner.now.group view.now) (endpoint 0)) }
    {
        let version = reply_version(view);
        let body = Body::EndpointReply {
            status: 0,
            text: self.product_id.as_slice(),
        };
        CiMessage::new(&CiView {
            address: view.address,
            sub: body.sub(),
            version,
            source: owner.muid.get(),
            destination: view.source,
            body,
        })
    }

    /// Creates the reply to an inquiry of profiles, at the same address (M2-101-UM). It has the profiles of
    /// exactly that place, those that are enabled and those that are disabled.
    pub(crate) fn tell_profiles(&self, owner: &Owner, view: &CiView<'_>) -> CiMessage
        requires { IsView view.now }
        ensures { Some result ≡ message_of_reply
            (reply_row (sender_of self.now owner.now.block owner.now.muid)
            (received_of owner.now.group view.now) profiles) }
    {
        let place = place_of(view.address, owner.group);
        let ids = ids_at(&self.states, owner.block, &place);
        let version = reply_version(view);
        let body = Body::ProfileReply {
            on: ids.on.as_slice(),
            off: ids.off.as_slice(),
        };
        CiMessage::new(&CiView {
            address: view.address,
            sub: body.sub(),
            version,
            source: owner.muid.get(),
            destination: view.source,
            body,
        })
    }

    /// Creates a report at the message's address, to broadcast, that a profile is enabled or disabled
    /// (M2-101-UM).
    pub(crate) fn report(
        &self,
        owner: &Owner,
        view: &CiView<'_>,
        id: ProfileId,
        on: bool,
    ) -> CiMessage
        requires { IsView view.now }
        ensures { Some result ≡ message_of_reply
            (reply_row (sender_of self.now owner.now.block owner.now.muid)
            (received_of owner.now.group view.now) (switch id on)) }
    {
        // says that the id is five data bytes
        id.data_bytes();
        let version = reply_version(view);
        let channels = channels_told(version, view.address);
        let body = report_of(id, channels, on);
        CiMessage::new(&CiView {
            address: view.address,
            sub: body.sub(),
            version,
            source: owner.muid.get(),
            destination: BROADCAST,
            body,
        })
    }
}
