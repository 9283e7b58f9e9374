// Decides what is done with a message.
ghost use Rattle.std.specs.Prelude.{◌≡◌, ◌==◌, false};
ghost use Rattle.ci_messages.specs.Writing.{IsView};
ghost use Rattle.ci_responder.specs.ForProofs.Actions.{IsSwitchOf, Suits, heard_of};
ghost use Rattle.ci_responder.specs.Messages.{key_at, said_in, received_of, viewed_message};
ghost use Rattle.ci_responder.specs.Rows.{
  heard_row,
  is_report as is_report_of,
  names,
  row_of_ours,
};

use crate::action::{Action, Switch};
use crate::heard::Heard;
use crate::keys::Key;
use crate::owner::Owner;
use crate::profiles::{number_of, place_of};
use crate::responder::Responder;
use ci_messages::{Body, CiView, ProfileId};

// Returns whether this is the sub-id of a reply, a report, an ACK or a NAK, other than the replies of Process
// Inquiry (own rule).
fn is_report(sub: u8) -> bool
    ensures { result ≡ is_report_of sub }
{
    matches!(sub, 0x71 | 0x73 | 0x21 | 0x24..=0x27 | 0x29 | 0x7D | 0x7F)
}

impl Responder {
    /// Returns the action of a block on a message: the first that applies.
    pub(crate) fn action(&self, owner: &Owner, view: &CiView<'_>) -> Action
        requires { IsView view.now }
        ensures heard { heard_of result ≡ heard_row owner.now.muid
            (names self.now.states owner.now.block (received_of owner.now.group view.now)
            (said_in view.now.body)) (viewed_message view.now) }
        ensures suits { Suits self.now.states owner.now.block (received_of owner.now.group view.now) result }
    {
        if view.is_from(owner.muid) {
            Action::Invalidate
        } else if view.version == 0 {
            Action::PassOver(Heard::OldVersion)
        } else if !view.is_for(owner.muid) {
            Action::PassOver(Heard::NotOurs)
        } else {
            self.action_by_body(owner, view)
        }
    }

    // Returns the action on a message that is for the block and isn't of version 00: the first that applies.
    fn action_by_body(&self, owner: &Owner, view: &CiView<'_>) -> Action
        requires view { IsView view.now }
        requires version { (view.now.version == 0) ≡ false }
        ensures heard { heard_of result ≡ row_of_ours owner.now.muid
            (names self.now.states owner.now.block (received_of owner.now.group view.now)
            (said_in view.now.body)) (viewed_message view.now) }
        ensures suits { Suits self.now.states owner.now.block (received_of owner.now.group view.now) result }
    {
        match &view.body {
            Body::Invalidate { target } if *target == owner.muid.get() => Action::Move,
            Body::Invalidate { .. } => Action::PassOver(Heard::NotOurs),
            Body::DiscoveryReply { .. } => Action::PassOver(Heard::Report),
            Body::EndpointReply { .. } => Action::PassOver(Heard::Report),
            Body::Nak { .. } => Action::PassOver(Heard::Report),
            Body::ProfileReply { .. } => Action::PassOver(Heard::Report),
            Body::EnabledReport { .. } => Action::PassOver(Heard::Report),
            Body::DisabledReport { .. } => Action::PassOver(Heard::Report),
            Body::Other(_) if is_report(view.sub) => Action::PassOver(Heard::Report),
            Body::Discovery { path, .. } => Action::TellDevice { path: *path },
            _ if view.is_for_all() => Action::PassOver(Heard::Broadcast),
            Body::EndpointInquiry { status: 0 } => Action::TellProductId,
            Body::EndpointInquiry { .. } => Action::Nak,
            Body::ProfileInquiry => Action::TellProfiles,
            Body::SetOn { id, .. } => self.switch_of(owner, view, id, true),
            Body::SetOff { id } => self.switch_of(owner, view, id, false),
            Body::Property(_) => Action::PassOver(Heard::Passed),
            Body::Other(_) => Action::Nak,
        }
    }

    // Returns the action for a request to enable or disable the profile with this id, at the place of the
    // message's address in the block. The action is a NAK if the setup doesn't name that profile.
    fn switch_of(&self, owner: &Owner, view: &CiView<'_>, id: &ProfileId, on: bool) -> Action
        ensures { IsSwitchOf self.now.states
            (key_at owner.now.block (received_of owner.now.group view.now) id.now) on result }
    {
        let key = Key {
            block: owner.block,
            place: place_of(view.address, owner.group),
            id: *id,
        };
        match number_of(&self.states, &key) {
            Some(number) => Action::Switch(Switch {
                number,
                id: *id,
                on,
            }),
            None => Action::Nak,
        }
    }
}
