// A profile of the setup.
ghost use Rattle.std.specs.Prelude.{◌≡◌, false};
ghost use Rattle.c_endpoint.specs.Profiles.{no_profile, profile_of};

use function_blocks::{Place, Profile};

// The number that stands for no group or channel of a profile (own rule).
const NO_PLACE: u8 = 255;

/// A profile of the setup, and whether it is enabled now.
#[repr(C)]
#[derive(Clone, Copy)]
pub struct EndpointProfile {
    /// The number of the profile's function block, counted from 0.
    pub block: u8,
    /// The profile's group, 0 to 15; 255 if the profile is for the whole function block.
    pub group: u8,
    /// The profile's channel, 0 to 15; 255 if the profile is for a whole group or for the whole function
    /// block.
    pub channel: u8,
    /// The profile's id, five bytes below 128 (M2-101-UM, profile id).
    pub id: [u8; 5],
    /// Whether the profile is enabled.
    pub is_on: bool,
}

impl EndpointProfile {
    /// Returns the value that stands for no profile.
    pub fn none() -> EndpointProfile
        ensures { result ≡ no_profile }
    {
        EndpointProfile {
            block: NO_PLACE,
            group: NO_PLACE,
            channel: NO_PLACE,
            id: [0; 5],
            is_on: false,
        }
    }

    /// Returns the value for a profile of the setup, which is enabled or disabled.
    pub fn of(profile: &Profile, is_on: bool) -> EndpointProfile
        ensures { result ≡ profile_of profile.now is_on }
    {
        let (group, channel) = match profile.place {
            Place::Function => (NO_PLACE, NO_PLACE),
            Place::Group(group) => (group.get(), NO_PLACE),
            Place::Channel(group, channel) => (group.get(), channel.get()),
        };
        let [first, second, third, fourth, fifth] = profile.id;
        EndpointProfile {
            block: profile.block,
            group,
            channel,
            id: [
                first.get(),
                second.get(),
                third.get(),
                fourth.get(),
                fifth.get(),
            ],
            is_on,
        }
    }
}
