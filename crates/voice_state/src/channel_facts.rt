// The facts of one channel, one at a time.
ghost use Rattle.std.specs.Prelude.{◌≡◌};
ghost use Rattle.midi_meaning.specs.Messages.{Scale};
ghost use Rattle.midi_meaning.specs.State as definition;
ghost use Rattle.voice_state.specs.Facts.{channel_facts};
ghost use Rattle.voice_state.specs.Kept.{KeepsChannel};

use crate::channel::Channel;
use crate::fact::Fact;
use crate::note_act::NoteAct;
use crate::param_map::ParamFacts;
use crate::table::{Content, TableFacts};
use small_types::U4;
use std::marker::Model;
use voice_messages::ParamKind;

/// The remaining facts of one channel, in the order of `VoiceState::facts`, without any memory for them. In
/// contracts its value is the list of these facts.
#[derive(Drop)]
pub struct ChannelFacts<'a> {
    group: U4,
    channel: U4,
    acts: &'a [NoteAct],
    poly: TableFacts<'a>,
    controllers: TableFacts<'a>,
    pressure: Option<Fact>,
    bend: Option<Fact>,
    program: Option<Fact>,
    registered: ParamFacts<'a>,
    assignable: ParamFacts<'a>,
}

impl<'a> Model for ChannelFacts<'a> {
    ghost use Rattle.std.specs.Prelude.{List, ◌++◌, map};
    ghost use Rattle.std.specs.Option.{option_to_list};
    ghost use Rattle.voice_state.specs.Acts.{act_of};
    ghost use Rattle.voice_state.specs.Facts.{act_fact};
    ghost use Rattle.voice_state.specs.declared.fact.Fact.{Fact};

    ghost Value = { List Fact };

    ghost view = { λ it. map (λ act. act_fact it.group it.channel (act_of act)) it.acts.now
        ++ it.poly ++ it.controllers
        ++ (option_to_list it.pressure ++ option_to_list it.bend ++ option_to_list it.program)
        ++ it.registered ++ it.assignable };
}

impl<'a> ChannelFacts<'a> {
    /// Returns all facts of a channel.
    pub(crate) fn of(kept: &'a Channel, group: U4, channel: U4) -> ChannelFacts<'a>
        ensures { (scale : Scale) (state : definition.Channel) → KeepsChannel scale kept.now state
            → result ≡ channel_facts scale group channel state }
    {
        ChannelFacts {
            group,
            channel,
            acts: kept.acts.as_slice(),
            poly: kept.poly.facts(Content::KeyPressures, group, channel),
            controllers: kept.controllers.facts(Content::Controllers, group, channel),
            pressure: kept.pressure_fact(group, channel),
            bend: kept.bend_fact(group, channel),
            program: kept.program_fact(group, channel),
            registered: kept
                .params
                .registered
                .facts(ParamKind::Registered, group, channel),
            assignable: kept
                .params
                .assignable
                .facts(ParamKind::Assignable, group, channel),
        }
    }
}

impl<'a> Iterator for ChannelFacts<'a> {
    ghost use Rattle.std.specs.Iterator.{YieldsFirst, item_count};

    type Item = Fact;

    ghost next_gives = { YieldsFirst (λ left. left) };

    ghost remaining = { item_count (λ left. left) };

    fn next(&mut self) -> Option<Fact> {
        if let Some((act, others)) = self.acts.split_first() {
            self.acts = others;
            return Some(act.fact(self.group, self.channel));
        }
        if let Some(fact) = self.poly.take_first() {
            return Some(fact);
        }
        if let Some(fact) = self.controllers.take_first() {
            return Some(fact);
        }
        if let Some(fact) = self.pressure.take() {
            return Some(fact);
        }
        if let Some(fact) = self.bend.take() {
            return Some(fact);
        }
        if let Some(fact) = self.program.take() {
            return Some(fact);
        }
        if let Some(fact) = self.registered.take_first() {
            return Some(fact);
        }
        self.assignable.take_first()
    }
}
