// The kinds of lines for MIDI 2.0 voice messages.
ghost use Rattle.std.specs.Prelude.{◌≡◌, if◌then◌else◌, true, false, Some, None};
ghost use Rattle.std.specs.Option.{option_map};
ghost use Rattle.midi_meaning.specs.declared.listed.Kind.TheVariants as kinds;
ghost use Rattle.midi_meaning.specs.Registers.{is_null};
ghost use Rattle.midi_meaning.specs.Controllers.{pairing, role_of};
ghost use Rattle.midi_meaning.specs.Listing.{attribute_kind, control_kind, voice_kind};
ghost use Rattle.down_translator.specs.Uncarried.{shift_kind};

use midi_meaning::{ControlRole, Kind, Listed, is_null_param};
use small_types::U4;
use voice_messages::{Param, U7, Voice2};

fn attribute_kind(attribute_type: u8) -> Option<Kind>
    ensures { result ≡ attribute_kind attribute_type }
{
    if attribute_type == 0 {
        None
    } else {
        Some(Kind::NoteAttribute)
    }
}

/// Returns the kind of line for a control change whose index has its own packets in MIDI 2.0, except for
/// the refused ones, without pairs.
#[inline(always)]
fn control_kind(index: U7) -> Option<Kind>
    ensures { result ≡ control_kind (pairing false (role_of index)) }
{
    match ControlRole::of(index) {
        ControlRole::BankMsb
        | ControlRole::BankLsb
        | ControlRole::DataMsb
        | ControlRole::DataLsb
        | ControlRole::NumberMsb(_)
        | ControlRole::NumberLsb(_) => Some(Kind::MisplacedController),
        _ => None,
    }
}

/// Returns the same with paired controllers, which also lists the LSB of a pair (own rules).
pub fn paired_kind(index: U7) -> Option<Kind>
    ensures { result ≡ control_kind (pairing true (role_of index)) }
{
    match ControlRole::of(index) {
        ControlRole::Fine => Some(Kind::FineController),
        _ => control_kind(index),
    }
}

fn set_kind(param: &Param) -> Option<Kind>
    ensures { result ≡ (if is_null param.now then Some kinds.NullParameter else None) }
{
    if is_null_param(param) {
        Some(Kind::NullParameter)
    } else {
        None
    }
}

/// Returns the kind of line for a relative parameter, which may be the null parameter.
#[inline(always)]
pub fn shift_kind(is_null: bool) -> Kind
    ensures { result ≡ shift_kind is_null }
{
    if is_null {
        Kind::NullParameter
    } else {
        Kind::RelativeParameter
    }
}

/// Returns the kind of line for a MIDI 2.0 voice message, if it is listed, without paired controllers (own
/// rules). The function is inlined, since a packet doesn't stay in registers if a call sees a part of it.
#[inline(always)]
pub fn voice_kind(message: &Voice2) -> Option<Kind>
    ensures { result ≡ voice_kind false message.now }
{
    match message {
        Voice2::NoteOff { attribute_type, .. } | Voice2::NoteOn { attribute_type, .. } => {
            attribute_kind(*attribute_type)
        }
        Voice2::Control { index, .. } => control_kind(*index),
        Voice2::Set { param, .. } => set_kind(param),
        Voice2::Shift { param, .. } => Some(shift_kind(is_null_param(param))),
        Voice2::NoteController { .. } => Some(Kind::NoteController),
        Voice2::NoteBend { .. } => Some(Kind::NoteBend),
        Voice2::NoteManagement { .. } => Some(Kind::NoteManagement),
        _ => None,
    }
}

/// Returns the line of a packet of this group, if it has a kind.
pub fn line(offset: u64, group: U4, kind: Option<Kind>) -> Option<Listed>
    ensures { result ≡ option_map (λ kind. record { offset = offset; group = Some group; kind = kind }) kind }
{
    match kind {
        None => None,
        Some(kind) => Some(Listed {
            offset,
            group: Some(group),
            kind,
        }),
    }
}
