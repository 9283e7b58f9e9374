// Follows a clip, packet by packet.
ghost use Rattle.std.specs.Prelude.{◌≡◌, ◌≤◌, ◌<◌, ◌^◌, ℕ, None, Ok, OnErr};
ghost use Rattle.midi_clip.specs.Roles.{role_of as role_in};
ghost use Rattle.midi_clip.specs.Stages.{end_of, new_stage, stage_after, step_of, ticks_of};

use crate::role::{Role, role_of};
use crate::step::{ClipFault, ClipStep, Stage};
use std::marker::Model;
use ump_grammar::Packet;

/// A clip, with the packets that have come so far. In contracts its value is its `Stage`.
#[derive(Debug, Drop)]
pub struct Clip {
    stage: Stage,
}

impl Model for Clip {
    ghost use Rattle.midi_clip.specs.declared.step.Stage.{Stage};
    ghost use Rattle.midi_clip.specs.Stages.{HasTicks};

    ghost Value = { Stage };

    ghost view = { λ c. c.stage };

    ghost invariant = { λ c. HasTicks c.stage };
}

impl Clip {
    /// Creates a clip before its first packet.
    pub fn new() -> Self
        ensures { result ≡ new_stage }
    {
        Clip {
            stage: Stage::NotStarted { resolution: None },
        }
    }

    /// Adds one more packet, if at most 2^63 ticks have passed, and returns what the packet is to the clip
    /// (own rule). Allocates no memory.
    ///
    /// * `NoResolution` is returned for a Start of Clip if the clip has not started, and no packet gave the
    ///   ticks per quarter note or the last one gave 0.
    /// * `AfterEnd` is returned for each packet after the end of the clip.
    ///
    /// A fault leaves the clip unchanged.
    pub fn packet(&mut self, packet: &Packet) -> Result<ClipStep, ClipFault>
        requires { ticks_of self.old ≤ 2 ^ 63 }
        ensures step { result ≡ step_of self.old (role_in packet.now) }
        ensures stage { self.new ≡ stage_after self.old (role_in packet.now) }
        ensures fault { OnErr result (self.new ≡ self.old) }
        ensures some { (ticks : ℕ) → result ≡ Ok (ClipStep.Began ticks) → 0 < ticks }
    {
        let role = role_of(packet);
        match self.stage {
            Stage::NotStarted { resolution } => self.wait(resolution, role),
            Stage::Started { ticks } => Ok(self.go_on(ticks, role)),
            Stage::Ended { .. } => Err(ClipFault::AfterEnd),
        }
    }

    /// Returns the time at which the clip ended, in ticks since its start, or `NoEnd` if it has not ended.
    pub fn end(&self) -> Result<u64, ClipFault>
        ensures { result ≡ end_of self.now }
    {
        match self.stage {
            Stage::Ended { ticks } => Ok(ticks),
            Stage::NotStarted { .. } | Stage::Started { .. } => Err(ClipFault::NoEnd),
        }
    }

    // Handles a packet before the clip starts.
    fn wait(&mut self, resolution: Option<u16>, role: Role) -> Result<ClipStep, ClipFault>
        requires { self.old ≡ Stage.NotStarted resolution }
        ensures step { result ≡ step_of self.old role }
        ensures stage { self.new ≡ stage_after self.old role }
        ensures fault { OnErr result (self.new ≡ self.old) }
    {
        match role {
            Role::StartOfClip => {
                let resolution = resolution.ok_or(ClipFault::NoResolution)?;
                self.stage = Stage::Started { ticks: 0 };
                Ok(ClipStep::Began(resolution))
            }
            Role::Resolution(ticks) => {
                self.stage = Stage::NotStarted {
                    resolution: if ticks == 0 { None } else { Some(ticks) },
                };
                Ok(ClipStep::Before)
            }
            Role::EndOfClip | Role::Delta(_) | Role::Other => Ok(ClipStep::Before),
        }
    }

    // Handles a packet within the clip, `ticks` ticks after its start.
    fn go_on(&mut self, ticks: u64, role: Role) -> ClipStep
        requires stage { self.old ≡ Stage.Started ticks }
        requires few { ticks ≤ 2 ^ 63 }
        ensures step { Ok result ≡ step_of self.old role }
        ensures stage { self.new ≡ stage_after self.old role }
    {
        match role {
            Role::EndOfClip => {
                self.stage = Stage::Ended { ticks };
                ClipStep::Ended(ticks)
            }
            Role::Delta(more) => {
                self.stage = Stage::Started {
                    ticks: ticks + u64::from(more),
                };
                ClipStep::Delta
            }
            Role::StartOfClip | Role::Resolution(_) | Role::Other => ClipStep::Event(ticks),
        }
    }
}
