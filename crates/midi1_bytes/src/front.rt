// Voice messages whose bytes follow each other directly, when nothing is open.
ghost use Rattle.std.specs.Prelude.{ℕ, ◌≡◌, ◌<◌, ◌≤◌, List, ◌∷◌, Option, Some, None, IfSome, MatchOption, length, take};
ghost use Rattle.midi1_bytes.specs.Messages.{AreData};
ghost use Rattle.midi1_bytes.specs.Fronts.{IsFront, leading_data, voice_with};
ghost use Rattle.midi1_bytes.specs.Parsing.{quiet};
ghost use Rattle.midi1_bytes.specs.Spoken.{voice_in};
ghost use Rattle.midi1_bytes.specs.Sorts.{one, two, sort_of, voice_status};

use crate::spoken::VoiceBytes;

// Returns the message that has its own status byte, and how many of these bytes belong to it.
#[tactic(auto, unfolding(crate::specs::Sorts::sort_of))]
#[inline(always)]
pub(crate) fn with_status(status: u8, first: u8, second: u8) -> Option<(VoiceBytes, usize)>
    requires { 128 ≤ status }
    ensures message { (more : List ℕ) →
        MatchOption result (voice_with (sort_of status) status (first ∷ second ∷ more) ≡ None)
        (λ given. voice_with (sort_of status) status (first ∷ second ∷ more) ≡ Some (voice_in given.0)) }
    ensures front { IfSome result (λ given. (room : ℕ) (running : Option ℕ) (more : List ℕ) →
        IsFront (quiet room running) (status ∷ first ∷ second ∷ more) given.0 given.1) }
{
    if (status >= 0xf0) | (first >= 0x80) {
        return None;
    }
    if matches!(status, 0xc0..=0xdf) {
        let message = VoiceBytes {
            status,
            first,
            second: 0,
        };
        return Some((message, 2));
    }
    if second >= 0x80 {
        return None;
    }
    let message = VoiceBytes {
        status,
        first,
        second,
    };
    Some((message, 3))
}

// Returns the message of two data bytes under running status.
#[tactic(auto, unfolding(crate::specs::Sorts::sort_of))]
#[inline(always)]
pub(crate) fn two_running(status: u8, first: u8, second: u8) -> Option<(VoiceBytes, usize)>
    requires sort { sort_of status ≡ voice_status two }
    requires below { first < 128 }
    ensures message { (more : List ℕ) →
        MatchOption result (voice_with (sort_of status) status (first ∷ second ∷ more) ≡ None)
        (λ given. voice_with (sort_of status) status (first ∷ second ∷ more) ≡ Some (voice_in given.0)) }
    ensures front { IfSome result (λ given. (room : ℕ) (more : List ℕ) →
        IsFront (quiet room (Some status)) (first ∷ second ∷ more) given.0 given.1) }
{
    if second >= 0x80 {
        return None;
    }
    let message = VoiceBytes {
        status,
        first,
        second,
    };
    Some((message, 2))
}

// Returns the message of one data byte under running status.
#[tactic(auto, unfolding(crate::specs::Sorts::sort_of))]
#[inline(always)]
pub(crate) fn one_running(status: u8, only: u8) -> (VoiceBytes, usize)
    requires sort { sort_of status ≡ voice_status one }
    requires below { only < 128 }
    ensures message { (next : ℕ) (more : List ℕ) →
        voice_with (sort_of status) status (only ∷ next ∷ more) ≡ Some (voice_in result.0) }
    ensures front { (room : ℕ) (more : List ℕ) →
        IsFront (quiet room (Some status)) (only ∷ more) result.0 result.1 }
{
    let message = VoiceBytes {
        status,
        first: only,
        second: 0,
    };
    (message, 1)
}

// Returns the number of data bytes at the front of these bytes.
#[inline(always)]
pub(crate) fn leading_data(bytes: &[u8]) -> usize
    ensures count { result ≡ leading_data bytes.now }
    ensures within { result ≤ length bytes.now }
{
    let mut count = 0;
    for &byte in bytes {
        if byte >= 0x80 {
            return count;
        }
        count += 1;
    }
    count
}

// Returns the number of data bytes at the front of these bytes, counting at most `most`.
#[tactic(auto, using(crate::proofs::FrontLaws::leading_of_all))]
#[inline(always)]
pub(crate) fn leading_data_within(bytes: &[u8], most: usize) -> usize
    ensures count { result ≡ leading_data (take most bytes.now) }
    ensures within { result ≤ length bytes.now }
    ensures within_most { result ≤ most }
    ensures data_bytes { AreData (take result bytes.now) }
{
    if bytes.len() < most {
        leading_data(bytes)
    } else {
        leading_data(&bytes[..most])
    }
}
