// The word for what a responder did with a message.
ghost use Rattle.std.specs.Prelude.{◌≡◌};
ghost use Rattle.ci_text.specs.Names.{name_of_heard as name_of};

use ci_responder::Heard;
use endpoint_lines::OutcomeName;

/// Returns the word with which a line says how a responder heard a message (own rule).
pub fn name_of_heard(heard: Heard) -> OutcomeName
    ensures { result ≡ name_of heard }
{
    match heard {
        Heard::NoBlock => OutcomeName::NoBlock,
        Heard::Silent => OutcomeName::Silent,
        Heard::Collision => OutcomeName::Collision,
        Heard::OldVersion => OutcomeName::OldVersion,
        Heard::NotOurs => OutcomeName::NotOurs,
        Heard::Moved => OutcomeName::Moved,
        Heard::Report => OutcomeName::Report,
        Heard::Broadcast => OutcomeName::Broadcast,
        Heard::Answered => OutcomeName::Answered,
        Heard::Passed => OutcomeName::Passed,
        Heard::Nak => OutcomeName::Nak,
    }
}
