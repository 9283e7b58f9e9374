// The result if there is no packet.
ghost use Rattle.std.specs.Prelude.{◌≡◌};
ghost use Rattle.packet_input.specs.Packets.{next_of_stop, reason_for, refusal_of_stop};

use outside::ReadStop;
use pass_loop::{LIMIT, Next, Reason};
use ump_grammar::Bad;
use ump_words::Framed;

/// Returns the reason for words that are refused (M2-104-UM, message types).
#[inline(always)]
pub(crate) fn reason_of(bad: Bad) -> Reason
    ensures { result ≡ reason_for bad }
{
    match bad {
        Bad::BadCount => Reason::BadCount,
        Bad::HighBit => Reason::HighBit,
    }
}

/// Returns the refusal for a word stream that ended with `stop`, where `before` is the number of input bytes
/// before the first word. Returns `None` if a read failed.
#[inline(always)]
pub(crate) fn refusal_of(stop: ReadStop, before: u64) -> Option<(Reason, u64)>
    ensures { result ≡ refusal_of_stop before stop }
{
    match stop {
        ReadStop::Read(_) => None,
        // Both are within the limit, so the sum never overflows.
        ReadStop::Truncated(at) => Some((Reason::Truncated, at.wrapping_add(before))),
        ReadStop::TooLong => Some((Reason::InputTooLong, LIMIT)),
    }
}

/// Returns the result for a word stream that ended with `stop`, where `before` is the number of input bytes
/// before the first word.
#[inline(always)]
pub(crate) fn stopped<P>(stop: ReadStop, before: u64) -> Next<Framed, P>
    ensures { result ≡ next_of_stop before stop }
{
    match refusal_of(stop, before) {
        Some(refusal) => Next::Refused {
            reason: refusal.0,
            offset: refusal.1,
        },
        None => Next::Failed,
    }
}
