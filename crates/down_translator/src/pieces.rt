// The pieces of voice and system messages.
ghost use Rattle.std.specs.Prelude.{◌≡◌, ◌≢◌, ◌<◌, ◌≤◌, ◌+◌, ◌++◌, [], ◌∷◌, length, true, false, None, Some, IfSome, MatchOption};
ghost use Rattle.std.specs.List.{flat_map};
ghost use Rattle.midi1_bytes.specs.Messages.{system_message, spelled, voice};
ghost use Rattle.voice_messages.specs.declared.voice1.Voice1.TheVariants as voice1;
ghost use Rattle.voice_messages.specs.declared.voice2.Voice2.TheVariants as voice2;
ghost use Rattle.midi_meaning.specs.Controllers.{pairing, role_of};
ghost use Rattle.midi_meaning.specs.Plain.{pair_messages, program_messages, set_messages, voice_messages};
ghost use Rattle.ump_grammar.specs.declared.packet.Packet.TheVariants as packet;
ghost use Rattle.midi_meaning.specs.Refusal.{bad_control};
ghost use Rattle.down_translator.specs.KeptLanes.{IsUnpaired, is_pair, is_single, lane_at, lanes_after, piece_by, unless_there};
ghost use Rattle.down_translator.specs.Statuses.{statuses_over, written_all};

use crate::kept_lanes::KeptLanes;
use crate::refusals::bad_control;
use crate::statuses::Statuses;
use crate::voice::{
    lower_bend, lower_control, lower_note_off, lower_note_on, lower_poly_pressure, lower_pressure,
};
use bit_scaling::down14;
use midi_meaning::{BadStep, ControlRole, is_null_param};
use midi1_bytes::write_system as spell_system;
use small_types::{ShortList, U4};
use voice_messages::{Bank, Param, ParamKind, System, U7, U14, Voice1, Voice2};

/// The bytes of at most four messages.
pub type Piece = ShortList<u8, 12>;

#[inline(always)]
fn control(channel: U4, index: u32, value: U7) -> Voice1
    requires { index < 128 }
    ensures { result ≡ voice1.Control channel index value }
{
    Voice1::Control {
        channel,
        index: U7::low_bits(index),
        value,
    }
}

/// Fills the piece with the bytes of a system message.
#[tactic(auto, using(crate::proofs::Spelling::spelled_message_of))]
fn fill_system(piece: &mut Piece, message: &System)
    ensures { piece.new ≡ flat_map spelled (system_message message.now ∷ []) }
{
    *piece = Piece::new();
    let bytes = spell_system(message);
    piece.extend(bytes.as_slice());
}

/// Returns whether a MIDI 2.0 control change is translated into one of MIDI 1.0, with controllers paired or
/// not.
#[inline(always)]
pub fn is_single_index(index: U7, paired: bool) -> bool
    ensures { result ≡ is_single (pairing paired (role_of index)) }
{
    match ControlRole::of(index).pairing(paired) {
        ControlRole::ResetAll | ControlRole::ChannelMode | ControlRole::Plain => true,
        _ => false,
    }
}

/// Appends both halves of a pair: the MSB of its value of 14 bits, and the LSB, whose index is higher by 32
/// (own rule).
fn add_pair(piece: &mut Piece, statuses: &mut Statuses, channel: U4, index: U7, value: U14)
    requires empty { piece.old ≡ [] }
    requires within { index + 32 < 128 }
    ensures bytes { piece.new ≡ written_all statuses.old (pair_messages channel index value) }
    ensures after { statuses.new ≡ statuses_over (pair_messages channel index value) statuses.old }
{
    let index = index.get() as u32;
    let value = value.get() as u32;
    statuses.add(piece, &control(channel, index, U7::low_bits(value / 128)));
    statuses.add(piece, &control(channel, index + 32, U7::low_bits(value)));
}

/// Appends the control changes that set a parameter: its number, 101 and 100 or 99 and 98, unless it is
/// already selected, and its value of 14 bits, 6 and 38 (MIDI 1.0 Detailed Specification, registered and
/// non-registered parameter numbers).
fn add_set(
    piece: &mut Piece,
    statuses: &mut Statuses,
    is_selected: bool,
    channel: U4,
    param: &Param,
    value: U14,
)
    requires { piece.old ≡ [] }
    ensures bytes { piece.new ≡
        written_all statuses.old (unless_there is_selected (set_messages channel param.now value)) }
    ensures after { statuses.new ≡
        statuses_over (unless_there is_selected (set_messages channel param.now value)) statuses.old }
{
    let (number_msb, number_lsb) = match param.kind {
        ParamKind::Registered => (101, 100),
        ParamKind::Assignable => (99, 98),
    };
    let value = value.get() as u32;
    if !is_selected {
        statuses.add(piece, &control(channel, number_msb, param.bank));
        statuses.add(piece, &control(channel, number_lsb, param.index));
    }
    statuses.add(piece, &control(channel, 6, U7::low_bits(value / 128)));
    statuses.add(piece, &control(channel, 38, U7::low_bits(value)));
}

/// Appends a program change, after its bank, 0 and 32, unless the bank is already set (MIDI 1.0 Detailed
/// Specification, bank select).
fn add_program(
    piece: &mut Piece,
    statuses: &mut Statuses,
    is_set: bool,
    channel: U4,
    program: U7,
    bank: Bank,
)
    requires { piece.old ≡ [] }
    ensures bytes { piece.new ≡
        written_all statuses.old (unless_there is_set (program_messages channel program (Some bank))) }
    ensures after { statuses.new ≡
        statuses_over (unless_there is_set (program_messages channel program (Some bank))) statuses.old }
{
    if !is_set {
        statuses.add(piece, &control(channel, 0, bank.msb));
        statuses.add(piece, &control(channel, 32, bank.lsb));
    }
    statuses.add(piece, &Voice1::Program { channel, program });
}

/// Returns the one message that is the plain piece of a MIDI 2.0 voice message without pairs, or `None`
/// exactly if the piece has no message or several.
#[tactic(auto, using(crate::proofs::PieceLaws::single_control, crate::proofs::PieceLaws::no_single_control))]
#[inline(always)]
fn single_message(message: &Voice2) -> Option<Voice1>
    ensures { MatchOption result (length (voice_messages false message.now) ≢ 1)
        (λ single. voice_messages false message.now ≡ voice single ∷ []) }
{
    Some(match *message {
        Voice2::NoteOff {
            channel,
            note,
            velocity,
            ..
        } => lower_note_off(channel, note, velocity),
        Voice2::NoteOn {
            channel,
            note,
            velocity,
            ..
        } => lower_note_on(channel, note, velocity),
        Voice2::PolyPressure {
            channel,
            note,
            value,
        } => lower_poly_pressure(channel, note, value),
        Voice2::Control {
            channel,
            index,
            value,
        } if is_single_index(index, false) => lower_control(channel, index, value),
        Voice2::Program {
            channel,
            program,
            bank: None,
        } => Voice1::Program { channel, program },
        Voice2::Pressure { channel, value } => lower_pressure(channel, value),
        Voice2::Bend { channel, value } => lower_bend(channel, value),
        _ => return None,
    })
}

/// Writes a MIDI 1.0 voice message to the lane of a group (MIDI 1.0 Detailed Specification, channel voice
/// messages).
#[tactic(auto, using(crate::proofs::PieceLaws::piece1, crate::proofs::PieceLaws::kept1))]
#[inline(always)]
pub fn write_voice1(piece: &mut Piece, lanes: &mut KeptLanes, group: U4, message: &Voice1)
    ensures bytes { piece.new
        ≡ piece_by lanes.old.paired lanes.old.style (lane_at lanes.old.states group) None
        (packet.Voice1 group message.now) }
    ensures after { lanes.new ≡ lanes_after (Some group) None (packet.Voice1 group message.now) lanes.old }
{
    *piece = Piece::new();
    lanes.write(piece, group, message);
}

/// Writes the control changes that set a parameter, or none for the null parameter (M2-104-UM, default
/// translation of registered and assignable controllers).
#[tactic(auto, using(crate::proofs::PieceLaws::piece_set, crate::proofs::PieceLaws::kept_set, crate::proofs::PieceLaws::null_piece, crate::proofs::PieceLaws::null_kept))]
#[inline(never)]
fn write_set(
    piece: &mut Piece,
    lanes: &mut KeptLanes,
    group: U4,
    channel: U4,
    param: &Param,
    value: u32,
)
    ensures bytes { piece.new
        ≡ piece_by lanes.old.paired lanes.old.style (lane_at lanes.old.states group) None
        (packet.Voice2 group (voice2.Set channel param.now value)) }
    ensures after { lanes.new ≡ lanes_after (Some group) None
        (packet.Voice2 group (voice2.Set channel param.now value)) lanes.old }
{
    *piece = Piece::new();
    if !is_null_param(param) {
        let mut statuses = lanes.statuses(group);
        let is_selected = lanes.have_selected(group, channel, param);
        let value = down14(value);
        add_set(piece, &mut statuses, is_selected, channel, param, value);
        lanes.keep_set(group, statuses, channel, param);
    }
}

/// Writes a program change, after its bank (M2-104-UM, default translation of a program change).
#[tactic(auto, using(crate::proofs::PieceLaws::piece_program, crate::proofs::PieceLaws::kept_program))]
#[inline(never)]
fn write_program(
    piece: &mut Piece,
    lanes: &mut KeptLanes,
    group: U4,
    channel: U4,
    program: U7,
    bank: Bank,
)
    ensures bytes { piece.new
        ≡ piece_by lanes.old.paired lanes.old.style (lane_at lanes.old.states group) None
        (packet.Voice2 group (voice2.Program channel program (Some bank))) }
    ensures after { lanes.new ≡ lanes_after (Some group) None
        (packet.Voice2 group (voice2.Program channel program (Some bank))) lanes.old }
{
    *piece = Piece::new();
    let mut statuses = lanes.statuses(group);
    let is_set = lanes.have_bank(group, channel, &bank);
    add_program(piece, &mut statuses, is_set, channel, program, bank);
    lanes.keep_program(group, statuses, channel, bank);
}

/// Writes both halves of a pair (own rule).
#[tactic(auto, using(crate::proofs::PieceLaws::piece_pair, crate::proofs::PieceLaws::kept_pair))]
fn write_pair(
    piece: &mut Piece,
    lanes: &mut KeptLanes,
    group: U4,
    channel: U4,
    index: U7,
    value: u32,
)
    requires pair { is_pair (pairing lanes.old.paired (role_of index)) ≡ true }
    requires below { index < 32 }
    ensures bytes { piece.new
        ≡ piece_by lanes.old.paired lanes.old.style (lane_at lanes.old.states group) None
        (packet.Voice2 group (voice2.Control channel index value)) }
    ensures after { lanes.new ≡ lanes_after (Some group) None
        (packet.Voice2 group (voice2.Control channel index value)) lanes.old }
{
    *piece = Piece::new();
    let mut statuses = lanes.statuses(group);
    add_pair(piece, &mut statuses, channel, index, down14(value));
    lanes.keep_statuses(group, statuses);
}

/// Writes a MIDI 2.0 control change if controllers are paired: both halves of a pair, and nothing if it
/// isn't translated (own rule). If it is refused, returns the reason and writes nothing. The function is
/// out of line, so that without pairs the packets of all kinds are translated in few instructions.
#[tactic(auto, using(crate::proofs::PieceLaws::single_piece, crate::proofs::PieceLaws::kept_single, crate::proofs::PieceLaws::single_control, crate::proofs::PieceLaws::control_piece, crate::proofs::PieceLaws::kept_control))]
#[inline(never)]
pub fn write_paired(
    piece: &mut Piece,
    lanes: &mut KeptLanes,
    group: U4,
    channel: U4,
    index: U7,
    value: u32,
) -> Option<BadStep>
    requires { lanes.old.paired ≡ true }
    ensures refused { result ≡ bad_control index }
    ensures bytes { result ≡ None → piece.new
        ≡ piece_by lanes.old.paired lanes.old.style (lane_at lanes.old.states group) None
        (packet.Voice2 group (voice2.Control channel index value)) }
    ensures after { result ≡ None → lanes.new ≡ lanes_after (Some group) None
        (packet.Voice2 group (voice2.Control channel index value)) lanes.old }
    ensures unchanged { IfSome result (λ bad. lanes.new ≡ lanes.old) }
{
    if let Some(bad) = bad_control(index) {
        return Some(bad);
    }
    match ControlRole::of(index) {
        ControlRole::Coarse => write_pair(piece, lanes, group, channel, index, value),
        ControlRole::ResetAll | ControlRole::ChannelMode | ControlRole::Plain => {
            write_voice1(piece, lanes, group, &lower_control(channel, index, value));
        }
        _ => *piece = Piece::new(),
    }
    None
}

/// Writes a message that is translated into several messages or into none. Several messages are written out
/// of line, by calls that see only fields of the message, so that a packet stays in registers.
#[tactic(auto, using(crate::proofs::PieceLaws::no_piece, crate::proofs::PieceLaws::kept_none))]
#[inline(always)]
fn write_others(piece: &mut Piece, lanes: &mut KeptLanes, group: U4, message: &Voice2)
    requires alone { IsUnpaired lanes.old.paired message.now }
    requires some { length (voice_messages lanes.old.paired message.now) ≢ 1 }
    ensures bytes { piece.new
        ≡ piece_by lanes.old.paired lanes.old.style (lane_at lanes.old.states group) None
        (packet.Voice2 group message.now) }
    ensures after { lanes.new ≡ lanes_after (Some group) None (packet.Voice2 group message.now) lanes.old }
{
    match *message {
        Voice2::Set {
            channel,
            param,
            value,
        } => write_set(piece, lanes, group, channel, &param, value),
        Voice2::Program {
            channel,
            program,
            bank: Some(bank),
        } => write_program(piece, lanes, group, channel, program, bank),
        _ => *piece = Piece::new(),
    }
}

/// Writes a MIDI 2.0 voice message, except for a control change if controllers are paired, to the lane of a
/// group, or nothing if it isn't translated (M2-104-UM, default translation). A message that is translated
/// into a single message is written as that one, so that most packets of both protocols are written in one
/// place.
#[tactic(auto, using(crate::proofs::PieceLaws::alone, crate::proofs::PieceLaws::unpaired_piece, crate::proofs::PieceLaws::kept_unpaired))]
#[inline(always)]
pub fn write_voice2(piece: &mut Piece, lanes: &mut KeptLanes, group: U4, message: &Voice2)
    requires { IsUnpaired lanes.old.paired message.now }
    ensures bytes { piece.new
        ≡ piece_by lanes.old.paired lanes.old.style (lane_at lanes.old.states group) None
        (packet.Voice2 group message.now) }
    ensures after { lanes.new ≡ lanes_after (Some group) None (packet.Voice2 group message.now) lanes.old }
{
    match single_message(message) {
        Some(single) => write_voice1(piece, lanes, group, &single),
        None => write_others(piece, lanes, group, message),
    }
}

/// Writes a system message to the lane of a group (MIDI 1.0 Detailed Specification, system common and
/// system Real Time messages).
#[tactic(auto, using(crate::proofs::PieceLaws::piece_system, crate::proofs::PieceLaws::kept_system))]
pub fn write_system(piece: &mut Piece, lanes: &mut KeptLanes, group: U4, message: &System)
    ensures bytes { piece.new
        ≡ piece_by lanes.old.paired lanes.old.style (lane_at lanes.old.states group) None
        (packet.System group message.now) }
    ensures after { lanes.new ≡ lanes_after (Some group) None (packet.System group message.now) lanes.old }
{
    fill_system(piece, message);
    lanes.keep_system(group, message);
}
