// The status bytes that are written.
ghost use Rattle.std.specs.Prelude.{◌≡◌, ◌<◌, ◌≤◌, ◌+◌, ◌++◌, ◌∷◌, [], if◌then◌else◌, length};
ghost use Rattle.midi1_bytes.specs.Messages.{voice};
ghost use Rattle.midi1_bytes.specs.RunningStatus.{is_running, without_status};
ghost use Rattle.down_translator.specs.Statuses.{statuses_after, written_in};

use crate::pieces::Piece;
use midi1_bytes::write_voice;
use voice_messages::Voice1;

/// The status bytes of voice messages that are written.
#[derive(Clone, Copy, Debug)]
pub enum Statuses {
    /// All status bytes.
    All,
    /// The status bytes that differ from the running status, which is this one (MIDI 1.0 Detailed
    /// Specification, running status).
    Changes(Option<u8>),
}

/// Appends a status byte to a piece, unless it is the running status (MIDI 1.0 Detailed Specification,
/// running status).
#[inline(always)]
fn add_status(piece: &mut Piece, running: Option<u8>, status: u8)
    requires { length piece.old < 12 }
    ensures { piece.new ≡ piece.old ++ (if is_running running status then [] else status ∷ []) }
{
    if running != Some(status) {
        piece.push(status);
    }
}

/// Appends the bytes of a message to a piece, without its status byte if that is the running status (MIDI
/// 1.0 Detailed Specification, running status). All other bytes are appended in one place, so that the
/// message stays in registers.
#[tactic(auto, using(crate::proofs::PieceLaws::without_status_is))]
#[inline(always)]
pub fn add_unless_running(piece: &mut Piece, running: Option<u8>, bytes: &[u8])
    requires some { 0 < length bytes.now }
    requires room { length piece.old + length bytes.now ≤ 12 }
    ensures { piece.new ≡ piece.old ++ without_status running bytes.now }
{
    add_status(piece, running, bytes[0]);
    piece.extend(&bytes[1..]);
}

impl Statuses {
    /// Appends the bytes of a voice message to a piece.
    #[inline(always)]
    pub fn add(&mut self, piece: &mut Piece, message: &Voice1)
        requires { length piece.old ≤ 9 }
        ensures bytes { piece.new ≡ piece.old ++ written_in self.old (voice message.now) }
        ensures size { length piece.new ≤ length piece.old + 3 }
        ensures after { self.new ≡ statuses_after (voice message.now) self.old }
    {
        let bytes = write_voice(message);
        let bytes = bytes.as_slice();
        match *self {
            Statuses::All => piece.extend(bytes),
            Statuses::Changes(running) => {
                add_unless_running(piece, running, bytes);
                *self = Statuses::Changes(Some(bytes[0]));
            }
        }
    }
}
