// The contents of a message.
use crate::muid::{BROADCAST, Muid};
use thiserror::Error;
use voice_messages::{U4, U7};

/// The number that stands for no function block (M2-101-UM, Reply to Discovery).
pub const NO_BLOCK: u8 = 0x7F;

/// The bit of Profile Configuration in the categories of MIDI-CI that a device supports (M2-101-UM,
/// Discovery).
pub const PROFILE_CONFIGURATION: u8 = 4;

/// The channel, group or function block that a message is about (M2-101-UM, device id).
#[derive(Clone, Copy, Debug, PartialEq, Eq)]
pub enum Address {
    /// 00 to 0F: a channel of the group on which the message is sent.
    Channel(U4),
    /// 7E: the group.
    Group,
    /// 7F: the function block.
    Block,
}

impl Address {
    ghost use Rattle.std.specs.Prelude.{◌≡◌, ◌<◌};
    ghost use Rattle.ci_messages.specs.Writing.{IsAddress, channels_of};

    /// Returns the number of channels of a profile at this address: 1 for a channel (own rule), and 0 for the
    /// group or the function block (M2-101-UM, profile configuration).
    pub fn channels(self) -> u16
        ensures value { result ≡ channels_of self }
        ensures few { result < 2 }
        ensures address { IsAddress self }
    {
        match self {
            Address::Channel(channel) => {
                // says that the channel is below 16
                channel.get();
                1
            }
            Address::Group => 0,
            Address::Block => 0,
        }
    }
}

/// The id of a profile: five data bytes (M2-101-UM, profile id).
#[derive(Clone, Copy, Debug, PartialEq, Eq)]
pub struct ProfileId {
    pub bytes: [U7; 5],
}

impl ProfileId {
    ghost use Rattle.std.specs.Prelude.{◌≡◌};
    ghost use Rattle.ci_messages.specs.Fields.{IsData};

    /// Returns the bytes of the id as they are written in a message (M2-101-UM, profile id).
    pub fn data_bytes(&self) -> [u8; 5]
        ensures value { result ≡ self.now.bytes }
        ensures data_bytes { IsData self.now.bytes }
    {
        let [first, second, third, fourth, fifth] = self.bytes;
        [
            first.get(),
            second.get(),
            third.get(),
            fourth.get(),
            fifth.get(),
        ]
    }
}

/// A MIDI-CI message (M2-101-UM). It borrows texts, lists and unread bytes from the bytes that were read.
#[derive(Clone, Copy, Debug, PartialEq, Eq)]
pub struct CiView<'a> {
    pub address: Address,
    /// Sub-ID 2, 00 to 7F, which says what kind of message this is.
    pub sub: u8,
    /// The version of the message format, 00 to 7F.
    pub version: u8,
    /// The sender's MUID, which has 28 bits.
    pub source: u32,
    /// The receiver's MUID, which has 28 bits. 0FFFFFFF is broadcast.
    pub destination: u32,
    pub body: Body<'a>,
}

impl<'a> CiView<'a> {
    ghost use Rattle.std.specs.Prelude.{◌≡◌, ◌==◌, ◌||◌};

    /// Returns whether the device with this MUID sent the message (M2-101-UM, MUID): the source is that MUID.
    pub fn is_from(&self, muid: Muid) -> bool
        ensures { result ≡ (self.now.source == muid) }
    {
        self.source == muid.get()
    }

    /// Returns whether the message is for all devices (M2-101-UM, MUID): the destination is 0FFFFFFF.
    pub fn is_for_all(&self) -> bool
        ensures { result ≡ (self.now.destination == 0x0FFFFFFF) }
    {
        self.destination == BROADCAST
    }

    /// Returns whether the message is for the device with this MUID (M2-101-UM, MUID), either for that device
    /// alone or for all devices.
    pub fn is_for(&self, muid: Muid) -> bool
        ensures { result ≡ (self.now.destination == muid || self.now.destination == 0x0FFFFFFF) }
    {
        self.destination == muid.get() || self.is_for_all()
    }
}

/// The bytes between the destination and F7, as fields. The sub-id says which fields there are. A message of
/// version 02 or above has the fields of version 02.
///
/// A message of version 01 has short forms (own rule, and no claim about an earlier edition of MIDI-CI):
/// - a Discovery and its reply have no path, and the path is read as 0; the reply has no block, which is read
///   as 7F;
/// - 22, 24 and 25 have no number of channels, which is read as 0, and 23 has no reserved bytes;
/// - a NAK has no bytes at all, so all its numbers are read as 0 and its text is empty;
/// - 72 and 73 are `Other`.
///
/// The body of a message of version 00 is `Other`, whatever its sub-id (own rule).
///
/// A `u8` is a data byte, 0 to 127. A `u16` has 14 bits and a `u32` 28. Arrays and borrowed bytes are data
/// bytes.
#[derive(Clone, Copy, Debug, PartialEq, Eq)]
pub enum Body<'a> {
    /// 70: Discovery.
    Discovery {
        /// The System Exclusive id of the manufacturer.
        manufacturer: [u8; 3],
        /// The device's family, the low byte first.
        family: [u8; 2],
        /// The device's model within its family, the low byte first.
        model: [u8; 2],
        /// The revision of the device's software.
        revision: [u8; 4],
        /// The categories of MIDI-CI that the device supports, one bit for each.
        category: u8,
        /// The largest System Exclusive message that the sender accepts, in bytes.
        size: u32,
        /// The output path id of the initiator.
        path: u8,
    },
    /// 71: Reply to Discovery.
    DiscoveryReply {
        manufacturer: [u8; 3],
        family: [u8; 2],
        model: [u8; 2],
        revision: [u8; 4],
        category: u8,
        size: u32,
        path: u8,
        /// The number of the function block, or 7F if there is none.
        block: u8,
    },
    /// 72: Inquiry: Endpoint.
    EndpointInquiry {
        /// The information that is asked for. 00 is the product instance id.
        status: u8,
    },
    /// 73: Reply to Endpoint Inquiry.
    EndpointReply {
        status: u8,
        text: &'a [u8],
    },
    /// 7E: Invalidate MUID.
    Invalidate {
        /// The MUID that is no longer valid.
        target: u32,
    },
    /// 7F: MIDI-CI NAK.
    Nak {
        /// The sub-id of the message that the NAK answers.
        original: u8,
        /// The status code.
        code: u8,
        /// The status value.
        value: u8,
        details: [u8; 5],
        text: &'a [u8],
    },
    /// 20: Profile Inquiry.
    ProfileInquiry,
    /// 21: Reply to Profile Inquiry. Both lists have ids of five bytes each.
    ProfileReply {
        /// The profiles that are enabled.
        on: &'a [u8],
        /// The profiles that are disabled.
        off: &'a [u8],
    },
    /// 22: Set Profile On.
    SetOn {
        id: ProfileId,
        /// The number of channels that the sender asks for.
        channels: u16,
    },
    /// 23: Set Profile Off.
    SetOff {
        id: ProfileId,
    },
    /// 24: Profile Enabled Report.
    EnabledReport {
        id: ProfileId,
        /// The number of channels that are enabled.
        channels: u16,
    },
    /// 25: Profile Disabled Report.
    DisabledReport {
        id: ProfileId,
        /// The number of channels that were enabled.
        channels: u16,
    },
    /// 30 to 3F: Property Exchange. The bytes aren't read further.
    Property(&'a [u8]),
    /// Any other sub-id, 72 and 73 of version 01, and every message of version 00. The bytes aren't read
    /// further.
    Other(&'a [u8]),
}

impl<'a> Body<'a> {
    ghost use Rattle.std.specs.Prelude.{◌≡◌, ◌<◌};
    ghost use Rattle.ci_messages.specs.Messages.{body_kind, sub_of};

    /// Returns the sub-id of a message with this body (M2-101-UM). `Property` and `Other` stand for several
    /// sub-ids, and the least is returned, 30 or 00.
    pub fn sub(&self) -> u8
        ensures value { result ≡ sub_of (body_kind self.now) }
        ensures data_byte { result < 128 }
    {
        match self {
            Body::Discovery { .. } => 0x70,
            Body::DiscoveryReply { .. } => 0x71,
            Body::EndpointInquiry { .. } => 0x72,
            Body::EndpointReply { .. } => 0x73,
            Body::Invalidate { .. } => 0x7E,
            Body::Nak { .. } => 0x7F,
            Body::ProfileInquiry => 0x20,
            Body::ProfileReply { .. } => 0x21,
            Body::SetOn { .. } => 0x22,
            Body::SetOff { .. } => 0x23,
            Body::EnabledReport { .. } => 0x24,
            Body::DisabledReport { .. } => 0x25,
            Body::Property(_) => 0x30,
            Body::Other(_) => 0x00,
        }
    }
}

/// Says why an exclusive isn't read as a message.
#[derive(Clone, Copy, Debug, PartialEq, Eq, Error)]
pub enum CiFault {
    /// The exclusive isn't universal and non-realtime (7E) and for MIDI-CI (0D), or it has fewer than 6
    /// bytes.
    #[error("the exclusive is not MIDI-CI")]
    NotCi,
    /// The exclusive ends before the destination does, or before a field of the body does.
    #[error("the message ends before its fields do")]
    Short,
    /// The address is none of 00 to 0F, 7E and 7F.
    #[error("the address is neither a channel, the group nor the function block")]
    BadAddress,
    /// The source is 0FFFFF00 or above: reserved, or broadcast.
    #[error("the source is a reserved or broadcast MUID")]
    ReservedMuid,
}
