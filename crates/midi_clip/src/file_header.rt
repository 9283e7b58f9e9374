// The header of a clip file.
ghost use Rattle.outside.specs.Outside.{HasCause};
ghost use Rattle.midi_clip.specs.Header.{TakesHeader};

use outside::{Failed, Source};

/// The size of a clip file's header, in bytes (own rule).
pub const HEADER_SIZE: u64 = 8;

/// Takes the first eight bytes from a source, or all of them if there are fewer, and no more. Returns
/// whether they are the bytes of `SMF2CLIP`, with which a clip file begins (own rule).
///
/// `Failed` is returned only if the source's count of faults rose. Then at most seven bytes were taken.
pub fn header<S: Source>(source: &mut S) -> Result<bool, Failed>
    ensures bytes { TakesHeader (S.left source.old) (S.left source.new) result }
    ensures cause { HasCause (S.faults source.old) (S.faults source.new) result }
{
    let mut bytes = [0; HEADER_SIZE as usize];
    let mut count = 0;
    while count < bytes.len() {
        match source.take(&mut bytes[count..]) {
            Ok(0) => return Ok(false),
            Ok(more) => count += more,
            Err(failed) => return Err(failed),
        }
    }
    Ok(bytes == *b"SMF2CLIP")
}
