// The messages that ask (M2-101-UM).
ghost use Rattle.std.specs.Prelude.{◌≡◌, ◌<◌};
ghost use Rattle.ci_initiator.specs.Asks.{
  discovery as discovery_of,
  inquiry as inquiry_of,
  set_off as set_off_of,
  set_on as set_on_of,
};

use crate::watch::Watch;
use ci_messages::{Address, BROADCAST, Body, CiView, Muid, PROFILE_CONFIGURATION};
use ci_responder::CiMessage;

/// The version of the message format.
const VERSION: u8 = 2;

/// The largest System Exclusive message that the initiator says it accepts, in bytes.
const MOST_BYTES: u32 = 512;

/// The initiator, the peer, and the profile that the initiator asks about.
#[derive(Clone, Copy, Debug, PartialEq, Eq)]
pub(crate) struct Question {
    /// The initiator's MUID. It isn't a reserved one.
    pub(crate) muid: Muid,
    /// The MUID of the peer.
    pub(crate) peer: Muid,
    /// The profile that the initiator asks about, and its address.
    pub(crate) watch: Watch,
    ghost not_reserved: { muid < 0x0FFFFF00 },
}

/// Creates a Discovery message.
pub(crate) fn discovery(muid: Muid) -> CiMessage
    requires { muid < 0x0FFFFF00 }
    ensures { result ≡ discovery_of muid }
{
    let body = Body::Discovery {
        manufacturer: [0; 3],
        family: [0; 2],
        model: [0; 2],
        revision: [0; 4],
        category: PROFILE_CONFIGURATION,
        size: MOST_BYTES,
        path: 0,
    };
    CiMessage::new(&CiView {
        address: Address::Block,
        sub: body.sub(),
        version: VERSION,
        source: muid.get(),
        destination: BROADCAST,
        body,
    })
}

/// Creates a Profile Inquiry.
pub(crate) fn inquiry(question: &Question) -> CiMessage
    ensures { result ≡ inquiry_of question.now.muid question.now.peer question.now.watch }
{
    let watch = &question.watch;
    // says that the channel of the address is below 16
    watch.address.channels();
    let body = Body::ProfileInquiry;
    CiMessage::new(&CiView {
        address: watch.address,
        sub: body.sub(),
        version: VERSION,
        source: question.muid.get(),
        destination: question.peer.get(),
        body,
    })
}

/// Creates a Set Profile On message.
pub(crate) fn set_on(question: &Question) -> CiMessage
    ensures { result ≡ set_on_of question.now.muid question.now.peer question.now.watch }
{
    let watch = &question.watch;
    let id = watch.id;
    // says that the id is five data bytes
    id.data_bytes();
    let channels = watch.address.channels();
    let body = Body::SetOn { id, channels };
    CiMessage::new(&CiView {
        address: watch.address,
        sub: body.sub(),
        version: VERSION,
        source: question.muid.get(),
        destination: question.peer.get(),
        body,
    })
}

/// Creates a Set Profile Off message.
pub(crate) fn set_off(question: &Question) -> CiMessage
    ensures { result ≡ set_off_of question.now.muid question.now.peer question.now.watch }
{
    let watch = &question.watch;
    let id = watch.id;
    // says that the id is five data bytes
    id.data_bytes();
    // says that the channel of the address is below 16
    watch.address.channels();
    let body = Body::SetOff { id };
    CiMessage::new(&CiView {
        address: watch.address,
        sub: body.sub(),
        version: VERSION,
        source: question.muid.get(),
        destination: question.peer.get(),
        body,
    })
}
