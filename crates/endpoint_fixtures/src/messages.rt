ghost use Rattle.std.specs.Prelude.{IfSome};
ghost use Rattle.ci_messages.specs.Fields.{IsData};
ghost use Rattle.ci_messages.specs.Reading.{IsExclusive};

use ci_messages::ProfileId;
use small_types::ShortList;
use voice_messages::U7;

/// A MUID as a message spells it: four data bytes, the low seven bits first.
pub type MuidBytes = [u8; 4];

/// The MUID that names all.
pub const BROADCAST: MuidBytes = [0x7F, 0x7F, 0x7F, 0x7F];

/// The MUID 5, of a peer.
pub const PEER: MuidBytes = [0x05, 0x00, 0x00, 0x00];

/// 19088743, the first MUID of the function block of `DEMO_SETUP`.
pub const FIRST_MUID: MuidBytes = [0x67, 0x0A, 0x0D, 0x09];

/// 300, its second one.
pub const SECOND_MUID: MuidBytes = [0x2C, 0x02, 0x00, 0x00];

/// The body of a reply to Discovery. Without its last byte, the function block, it is that of a Discovery;
/// without its last two the body of either in version 01.
pub const DISCOVERY_REPLY: [u8; 18] = [
    0x7D, 0x00, 0x00, 0x01, 0x00, 0x02, 0x00, 0x01, 0x00, 0x00, 0x00, 0x04, 0x00, 0x02, 0x00, 0x00,
    0x00, 0x00,
];

/// The body of a switch or a report of the profile of `DEMO_SETUP`, for
/// one channel. Its id alone is the body in version 01.
pub const PROFILE: [u8; 7] = [0x7E, 0x00, 0x01, 0x01, 0x00, 0x01, 0x00];

/// The same of a profile that the setup does not have.
pub const OTHER_PROFILE: [u8; 7] = [0x7E, 0x00, 0x01, 0x02, 0x00, 0x01, 0x00];

/// The id of the profile of `DEMO_SETUP`.
pub fn profile_id() -> ProfileId
    ensures { IsData result.bytes }
{
    ProfileId {
        bytes: [
            U7::low_bits(0x7E),
            U7::low_bits(0x00),
            U7::low_bits(0x01),
            U7::low_bits(0x01),
            U7::low_bits(0x00),
        ],
    }
}

/// The exclusive with these bytes between F0 and F7; `None` if one of them is no data byte, or if they are
/// more than 510.
pub fn framed(payload: &[u8]) -> Option<ShortList<u8, 512>>
    ensures { IfSome result IsExclusive }
{
    if payload.len() > 510 || payload.iter().any(|byte| *byte >= 128) {
        return None;
    }
    let mut message = ShortList::new();
    message.push(0xF0);
    message.extend(payload);
    message.push(0xF7);
    Some(message)
}

/// A MIDI-CI message by its fields, in their order, after 7E and around the sub-id 0D.
#[derive(Clone, Copy)]
pub struct CiMessage<'a> {
    /// The device id: a channel, 7E for the group, 7F for the function block.
    pub address: u8,
    /// The second sub-id, which names the message.
    pub sub: u8,
    /// The version of the format of the message.
    pub version: u8,
    pub source: MuidBytes,
    pub destination: MuidBytes,
    /// What comes after the MUIDs.
    pub body: &'a [u8],
}

impl CiMessage<'_> {
    /// The bytes between F0 and F7; `None` if the body has more than 497.
    pub fn payload(&self) -> Option<ShortList<u8, 510>> {
        if self.body.len() > 497 {
            return None;
        }
        let mut payload = ShortList::new();
        payload.extend(&[0x7E, self.address, 0x0D, self.sub, self.version]);
        payload.extend(&self.source);
        payload.extend(&self.destination);
        payload.extend(self.body);
        Some(payload)
    }

    /// The exclusive of the message; `None` if one of its bytes is no data byte, or if the body has more than
    /// 497.
    pub fn exclusive(&self) -> Option<ShortList<u8, 512>>
        ensures { IfSome result IsExclusive }
    {
        framed(self.payload()?.as_slice())
    }
}
