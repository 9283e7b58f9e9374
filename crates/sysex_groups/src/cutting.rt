// Cuts a payload into packets.
ghost use Rattle.std.specs.Prelude.{◌≡◌, ◌<◌};
ghost use Rattle.std.specs.Fork.{slice_chunk};
ghost use Rattle.sysex_groups.specs.Cut.{cut_packet, part_at};

use small_types::ShortList;
use voice_messages::Form;

/// Returns the bytes of packet `k`.
#[inline(always)]
fn bytes_of<const N: usize>(payload: &[u8], k: usize) -> ShortList<u8, N>
    ensures { result ≡ slice_chunk payload.now N k }
{
    let start = k.saturating_mul(N).min(payload.len());
    let count = (payload.len() - start).min(N);
    let mut bytes = ShortList::new();
    bytes.extend(&payload[start..start + count]);
    bytes
}

/// Returns packet `k`, counted from 0, of an exclusive's payload, with at most `N` bytes in each packet
/// (M2-104-UM, system exclusive messages), or `None` exactly if `k` is past the last packet. A payload of
/// up to `N` bytes is one `Complete`. A longer one is a `Start`, `Continue`s, and an `End` of 1 to `N`
/// bytes. An empty payload is one empty `Complete` (own rule).
#[inline(always)]
pub fn cut<const N: usize>(payload: &[u8], k: usize) -> Option<(Form, ShortList<u8, N>)>
    requires { 0 < N }
    ensures { result ≡ cut_packet N payload.now k }
{
    let count = payload.len().div_ceil(N).max(1);
    if k < count {
        Some((Form::at(k, count), bytes_of(payload, k)))
    } else {
        None
    }
}

/// Returns packet `k`, counted from 0, of an exclusive's payload, the bytes between F0 and F7, with at most
/// six bytes in each packet (M2-104-UM, system exclusive 7-bit messages). It cuts as `cut` does.
pub fn part(payload: &[u8], k: usize) -> Option<(Form, ShortList<u8, 6>)>
    ensures { result ≡ part_at payload.now k }
{
    cut(payload, k)
}
