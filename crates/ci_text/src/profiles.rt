// The lines for the profiles of a setup.
ghost use Rattle.std.specs.Prelude.{◌≡◌, ◌<◌, Bool, [], ◌∷◌, Option, length, unwrap_or};
ghost use Rattle.ci_responder.specs.Keys.{key_of, state_in};
ghost use Rattle.ci_responder.specs.declared.keys.Key.{Key};
ghost use Rattle.pass_loop.specs.Places.{Puts};
ghost use Rattle.ci_text.specs.Profiles.{profile_line_of, profile_lines, put_at};

use ci_responder::{Key, ProfileId, Responder};
use endpoint_lines::profile_line;
use function_blocks::{Profile, Setup};
use pass_loop::{Outputs, RunEnd};

/// The place to which a line is written.
#[derive(Clone, Copy, Debug, PartialEq, Eq)]
pub enum LinePlace {
    /// The output, among the other lines of the command.
    Output,
    /// The notes, among the lines of the listing.
    Notes,
}

/// Says which profiles are enabled.
pub trait ProfileStates {
    /// Whether a profile is enabled, by its key, if that is known.
    ghost states: { Self → Key → Option Bool };

    /// Returns whether the profile with this key is enabled, or `None` if that isn't known.
    fn profile_is_on(&self, key: &Key) -> Option<bool>
        ensures { result ≡ states self.now key.now };
}

impl ProfileStates for Responder {
    ghost states = { λ responder. state_in responder.states };

    fn profile_is_on(&self, key: &Key) -> Option<bool> {
        Responder::profile_is_on(self, key)
    }
}

// Returns whether a profile is enabled: as `known` says or, if it doesn't know, as the setup says.
fn is_on<P: ProfileStates>(known: &P, profile: &Profile) -> bool
    ensures { result ≡ unwrap_or (P.states known.now (key_of profile.now)) profile.now.on }
{
    let id = profile.id;
    let key = Key {
        block: profile.block,
        place: profile.place,
        id: ProfileId { bytes: id },
    };
    known.profile_is_on(&key).unwrap_or(profile.on)
}

// Writes a line, which isn't empty, to the output or to the notes.
fn put_line<O: Outputs>(place: LinePlace, line: &[u8], outputs: &mut O) -> Result<(), RunEnd>
    requires { 0 < length line.now }
    ensures { Puts (put_at place line.now ∷ []) (O.places outputs.old) (O.places outputs.new) result }
{
    match place {
        LinePlace::Output => outputs.put_output(line),
        LinePlace::Notes => outputs.put_notes(line),
    }
}

// Writes the line for a profile.
fn put_profile<P: ProfileStates, O: Outputs>(
    known: &P,
    profile: &Profile,
    place: LinePlace,
    outputs: &mut O,
) -> Result<(), RunEnd>
    ensures { Puts (profile_line_of place (P.states known.now) 0 profile.now)
        (O.places outputs.old) (O.places outputs.new) result }
{
    let line = profile_line(profile, is_on(known, profile));
    put_line(place, line.as_slice(), outputs)
}

/// Writes the line for each profile of a setup, in the order of the setup. The line says whether the profile
/// is enabled, as `known` says or, if it doesn't know, as the setup says (own rule). The error is the fault
/// of the place, `OutputFault` or `NoteFault`, and is returned only if the place's count of faults rose.
pub fn put_profiles<P: ProfileStates, O: Outputs>(
    setup: &Setup,
    known: &P,
    place: LinePlace,
    outputs: &mut O,
) -> Result<(), RunEnd>
    ensures { Puts (profile_lines place (P.states known.now) setup.now.profiles)
        (O.places outputs.old) (O.places outputs.new) result }
{
    for profile in setup.profiles() {
        put_profile(known, profile, place, outputs)?;
    }
    Ok(())
}
