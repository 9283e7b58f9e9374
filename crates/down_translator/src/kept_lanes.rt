// The state of the lanes, which are written in a style.
ghost use Rattle.std.specs.Prelude.{◌≡◌, ◌≤◌, ◌<◌, ◌++◌, ◌&&◌, if◌then◌else◌, not, IfOk, Some, false, is_some, length};
ghost use Rattle.std.specs.Option.{option_map};
ghost use Rattle.midi1_bytes.specs.Messages.{voice};
ghost use Rattle.midi1_bytes.specs.RunningStatus.{is_running};
ghost use Rattle.sysex_groups.specs.Exclusives.{ended_by};
ghost use Rattle.sysex_groups.specs.Table.{begun_in};
ghost use Rattle.midi_meaning.specs.Compact.{has_bank, is_selected};
ghost use Rattle.midi_meaning.specs.LaneState.{at_registers_of, channels_after1, registers_at};
ghost use Rattle.midi_meaning.specs.Registers.{with_bank, with_selected};
ghost use Rattle.midi_meaning.specs.Controllers.{is_direct, pairing, role_of};
ghost use Rattle.down_translator.specs.KeptLanes.{
  after_system,
  is_plain,
  is_there,
  kept_by,
  lane_at,
  new_lanes,
  statuses_in,
  style_in,
  when_compact,
  when_plain,
  with_exclusive,
  with_lane,
};
ghost use Rattle.down_translator.specs.Statuses.{statuses_after, written_in};
ghost use Rattle.down_translator.specs.declared.statuses.Statuses.TheVariants.{Changes};

use crate::lane::Lane;
use crate::pieces::Piece;
use crate::statuses::Statuses;
use crate::style::Style;
use midi_meaning::DirectControls;
use midi1_bytes::write_voice;
use small_types::{NoMemory, U4};
use std::alloc::Global;
use std::marker::Model;
use sysex_groups::Groups;
use voice_messages::{Bank, Form, Param, System, U7, Voice1};

/// The style in which lanes are written, and in compact style the state of each of the sixteen. In plain
/// style no state is stored.
#[derive(Drop)]
pub struct KeptLanes {
    style: Style,
    paired: bool,
    lanes: Vec<Lane>,
    // The direct control changes in plain style, and those in compact style. Each is empty in the other
    // style.
    whole: DirectControls,
    shortened: DirectControls,
}

impl Model for KeptLanes {
    ghost use Rattle.std.specs.Prelude.{◌≡◌, length};
    ghost use Rattle.down_translator.specs.KeptLanes as definition;

    ghost Value = { definition.KeptLanes };

    ghost view = { λ l. record {
      style = definition.style_in l.style;
      paired = l.paired;
      states = l.lanes.items;
    } };

    ghost invariant = { λ l. (length l.lanes.items ≡ 16)
        × (l.whole ≡ definition.when_plain (definition.style_in l.style) l.paired)
        × (l.shortened ≡ definition.when_compact (definition.style_in l.style) l.paired) };
}

// Returns the direct control changes in plain style, which writes all their bytes, and those in compact
// style.
fn direct_controls(style: Style, paired: bool) -> (DirectControls, DirectControls)
    ensures whole { result.0 ≡ when_plain (style_in style) paired }
    ensures shortened { result.1 ≡ when_compact (style_in style) paired }
{
    match style {
        Style::Plain => (DirectControls::new(paired), DirectControls::none()),
        Style::Compact => (DirectControls::none(), DirectControls::new(paired)),
    }
}

impl KeptLanes {
    /// Creates sixteen lanes to which nothing has been written, with controllers paired or not (own rule).
    /// Reserves memory for their state. Returns `NoMemory` if the memory can't be allocated.
    pub fn new(alloc: Global, style: Style, paired: bool) -> Result<KeptLanes, NoMemory>
        ensures { IfOk result (λ lanes. lanes ≡ new_lanes paired (style_in style)) }
    {
        let Ok(mut lanes) = Vec::with_capacity(alloc, 16) else {
            return Err(NoMemory);
        };
        for _ in 0..16usize {
            let Ok(lane) = Lane::new(alloc) else {
                return Err(NoMemory);
            };
            if lanes.push(lane).is_err() {
                return Err(NoMemory);
            }
        }
        let (whole, shortened) = direct_controls(style, paired);
        Ok(KeptLanes {
            style,
            paired,
            lanes,
            whole,
            shortened,
        })
    }

    /// Forgets the state: nothing has been written to any lane.
    pub fn reset(&mut self)
        ensures { self.new ≡ new_lanes self.old.paired self.old.style }
    {
        for lane in self.lanes.iter_mut() {
            lane.forget();
        }
    }

    /// Returns whether controllers are paired (own rule).
    #[inline(always)]
    pub fn paired(&self) -> bool
        ensures { result ≡ self.now.paired }
    {
        self.paired
    }

    /// Returns whether the style is plain and the control change with this index is direct, with
    /// controllers paired or not.
    #[tactic(auto, using(crate::proofs::DirectLaws::direct_when_plain))]
    #[inline(always)]
    pub fn goes_direct(&self, index: U7) -> bool
        ensures { result ≡ (is_plain self.now.style
            && is_direct (pairing self.now.paired (role_of index))) }
    {
        self.whole.has(index)
    }

    /// Returns whether the style is compact and the control change with this index is direct, with
    /// controllers paired or not.
    #[tactic(auto, using(crate::proofs::DirectLaws::direct_when_compact))]
    #[inline(always)]
    pub fn is_shortened(&self, index: U7) -> bool
        ensures { result ≡ (not (is_plain self.now.style)
            && is_direct (pairing self.now.paired (role_of index))) }
    {
        self.shortened.has(index)
    }

    /// Returns the status bytes that are written in the lane of a group.
    #[inline(always)]
    pub fn statuses(&self, group: U4) -> Statuses
        ensures { result ≡ statuses_in self.now.style (lane_at self.now.states group) }
    {
        match self.style {
            Style::Plain => Statuses::All,
            Style::Compact => Statuses::Changes(self.lanes[group.get() as usize].running()),
        }
    }

    /// Returns whether the receiver of a group's lane has both halves of this bank (MIDI 1.0 Detailed
    /// Specification, bank select). Always `false` in plain style.
    pub fn have_bank(&self, group: U4, channel: U4, bank: &Bank) -> bool
        ensures { result ≡ is_there self.now.style
            (has_bank (registers_at (lane_at self.now.states group).channels channel) bank.now) }
    {
        match self.style {
            Style::Plain => false,
            Style::Compact => self.lanes[group.get() as usize].has_bank(channel, bank),
        }
    }

    /// Returns whether the receiver of a group's stream has this parameter selected (MIDI 1.0 Detailed
    /// Specification, registered and non-registered parameter numbers). Always `false` in plain style.
    pub fn have_selected(&self, group: U4, channel: U4, param: &Param) -> bool
        ensures { result ≡ is_there self.now.style
            (is_selected (registers_at (lane_at self.now.states group).channels channel) param.now) }
    {
        match self.style {
            Style::Plain => false,
            Style::Compact => self.lanes[group.get() as usize].has_selected(channel, param),
        }
    }

    /// Appends the bytes of a MIDI 1.0 voice message to a piece, in compact style without its status byte
    /// if that is the running status, and stores the state after it (MIDI 1.0 Detailed Specification,
    /// running status). For a packet that is translated into one message, only this call tests the style.
    #[inline(always)]
    pub fn write(&mut self, piece: &mut Piece, group: U4, message: &Voice1)
        requires { length piece.old ≤ 9 }
        ensures bytes { piece.new ≡ piece.old
            ++ written_in (statuses_in self.old.style (lane_at self.old.states group)) (voice message.now) }
        ensures after { self.new ≡ kept_by group
            (statuses_after (voice message.now) (statuses_in self.old.style (lane_at self.old.states group)))
            (channels_after1 message.now) self.old }
    {
        let bytes = write_voice(message);
        match self.style {
            Style::Plain => piece.extend(bytes.as_slice()),
            Style::Compact => {
                let lane = &mut self.lanes[group.get() as usize];
                lane.write(piece, message, bytes.as_slice());
            }
        }
    }

    /// Stores the effect of setting a parameter, with the status bytes that are written from now on: the
    /// parameter is selected (MIDI 1.0 Detailed Specification, registered and non-registered parameter
    /// numbers).
    pub fn keep_set(&mut self, group: U4, statuses: Statuses, channel: U4, param: &Param)
        ensures { self.new ≡
            kept_by group statuses (at_registers_of channel (with_selected param.now)) self.old }
    {
        match (self.style, statuses) {
            (Style::Compact, Statuses::Changes(running)) => {
                self.lanes[group.get() as usize].keep_set(running, channel, param);
            }
            _ => {}
        }
    }

    /// Stores the effect of a program change, with the status bytes that are written from now on: the
    /// channel has its bank (MIDI 1.0 Detailed Specification, bank select).
    pub fn keep_program(&mut self, group: U4, statuses: Statuses, channel: U4, bank: Bank)
        ensures { self.new ≡ kept_by group statuses (at_registers_of channel (with_bank bank)) self.old }
    {
        match (self.style, statuses) {
            (Style::Compact, Statuses::Changes(running)) => {
                self.lanes[group.get() as usize].keep_program(running, channel, bank);
            }
            _ => {}
        }
    }

    /// Stores the status bytes that are written from now on. A pair leaves the registers unchanged.
    pub fn keep_statuses(&mut self, group: U4, statuses: Statuses)
        ensures { self.new ≡ kept_by group statuses (λ channels. channels) self.old }
    {
        match (self.style, statuses) {
            (Style::Compact, Statuses::Changes(running)) => {
                self.lanes[group.get() as usize].keep_running(running);
            }
            _ => {}
        }
    }

    /// Returns whether a status byte is the running status of a group's lane in compact style, and makes it
    /// the running status (MIDI 1.0 Detailed Specification, running status). The registers are unchanged.
    #[inline(always)]
    pub fn take_status(&mut self, group: U4, status: u8) -> bool
        requires { is_plain self.old.style ≡ false }
        ensures running { result ≡ is_running (lane_at self.old.states group).running status }
        ensures after { self.new ≡
            kept_by group (Changes (Some status)) (λ channels. channels) self.old }
    {
        self.lanes[group.get() as usize].take_status(status)
    }

    /// Stores the effect of a system message (MIDI 1.0 Detailed Specification, running status; System Reset
    /// by own rule).
    pub fn keep_system(&mut self, group: U4, message: &System)
        ensures { self.new ≡
            with_lane group (after_system message.now (lane_at self.old.states group)) self.old }
    {
        match self.style {
            Style::Plain => {}
            Style::Compact => self.lanes[group.get() as usize].keep_system(message),
        }
    }

    /// Stores the effect of a part of an exclusive. Call it before the groups take the part. The end of an
    /// exclusive that isn't refused ends the running status (MIDI 1.0 Detailed Specification, running
    /// status). In plain style the groups aren't consulted.
    #[tactic(auto, using(crate::proofs::ExclusiveLaws::plain_part))]
    #[inline(always)]
    pub fn keep_part(&mut self, groups: &Groups, group: U4, form: Form, bytes: &[u8])
        ensures { self.new ≡ if is_some (ended_by (Some groups.now.room) form
            (option_map (λ begun. begun.bytes) (begun_in groups.now group)) bytes.now)
            then with_exclusive group self.old else self.old }
    {
        match self.style {
            Style::Plain => {}
            Style::Compact => {
                if groups.ends(group, form, bytes) {
                    self.end_running(group);
                }
            }
        }
    }

    #[inline(never)]
    fn end_running(&mut self, group: U4)
        ensures { self.new ≡ with_exclusive group self.old }
    {
        match self.style {
            Style::Plain => {}
            Style::Compact => self.lanes[group.get() as usize].end_running(),
        }
    }
}
