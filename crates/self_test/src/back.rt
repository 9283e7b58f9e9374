// Translates the bytes of channel voice messages up, and down again.
ghost use Rattle.std.specs.Prelude.{◌≡◌, ◌≤◌, ◌<◌, ◌+◌, ◌*◌, ◌^◌, ℕ, List, ◌∷◌, ◌++◌, length, reverse, None, Some};
ghost use Rattle.ump_grammar.specs.Ranges.{IsPacket};
ghost use Rattle.down_translator.specs.Held.{down_after, refusal_in};
ghost use Rattle.down_translator.specs.Step.{piece_of};
ghost use Rattle.midi1_bytes.specs.Steps.{step_of};
ghost use Rattle.self_test.specs.ForProofs.Held.{ComesBack, HasReturned};
ghost use Rattle.self_test.specs.Played.{ArePlayed, IsPlayedStep};

use down_translator::Down;
use midi1_bytes::laws::parsed_bytes_are_the_definition;
use up_translator::laws::raised_bytes_are_the_definition;
use up_translator::{RaisedPacket, Up};

// Translates down the packet of a message that was translated up. Returns the number of bytes of the packet's
// piece. No packet is refused.
fn bring_down(packet: &RaisedPacket, offset: u64, down: &mut Down) -> u64
    requires fits { IsPacket packet.now }
    requires accepted { refusal_in down.old packet.now ≡ None }
    ensures count { result ≡ length (piece_of down.old packet.now) }
    ensures after { down.new ≡ down_after offset packet.now down.old }
{
    match down.packet(&packet.packet(), offset) {
        Ok(carried) => carried.piece.len() as u64,
        Err(_) => 0,
    }
}

// Translates one byte up, and down again the packet that the byte completes. Returns the number of bytes that
// come back, at most twelve. Channel voice messages complete no exclusive, and neither translator refuses
// them.
fn bring_byte_back(byte: u8, offset: u64, up: &mut Up, down: &mut Down) -> u64
    requires ready { (past : List ℕ) × HasReturned past up.old down.old
        × IsPlayedStep (step_of (Some 6) past byte) × (offset ≡ length past) }
    ensures few { result ≤ 12 }
    ensures back { (past : List ℕ) → HasReturned past up.old down.old →
        IsPlayedStep (step_of (Some 6) past byte) → offset ≡ length past →
        ComesBack past (byte ∷ past) result up.new down.new }
{
    parsed_bytes_are_the_definition();
    raised_bytes_are_the_definition();
    match up.byte(byte, offset) {
        Ok(raised) => match raised.packet {
            Some(packet) => bring_down(packet, offset, down),
            None => 0,
        },
        Err(_) => 0,
    }
}

// Translates the bytes of a piece up, and the packets that they complete down again. Returns the number of
// bytes that come back, at most twelve for each byte of the piece.
pub(crate) fn bring_back(piece: &[u8], offset: u64, up: &mut Up, down: &mut Down) -> u64
    requires ready { (past : List ℕ) × HasReturned past up.old down.old
        × ArePlayed (reverse piece.now ++ past) × (offset ≡ length past) }
    requires short { length piece.now ≤ 12 }
    requires place { offset + length piece.now < 2 ^ 64 }
    ensures few { result ≤ 12 * length piece.now }
    ensures back { (past : List ℕ) → HasReturned past up.old down.old →
        ArePlayed (reverse piece.now ++ past) → offset ≡ length past →
        ComesBack past (reverse piece.now ++ past) result up.new down.new }
{
    let mut again = 0;
    let mut at = offset;
    for byte in piece {
        again += bring_byte_back(*byte, at, up, down);
        at += 1;
    }
    again
}
