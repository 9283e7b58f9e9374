// The result of a packet that is translated down, in the form in which a caller gets it.
ghost use Rattle.std.specs.Prelude.{◌≡◌};
ghost use Rattle.c_translators.specs.Pieces.{needing, no_piece, piece_shown};

use c_answers::kind_number;
use midi_meaning::Listed;
use small_types::U4;

/// The result of a packet: the number of its MIDI 1.0 bytes and their lane, and its line of the listing.
#[repr(C)]
#[derive(Clone, Copy)]
pub struct Piece {
    /// The number of bytes written.
    pub written: usize,
    /// After `SmallBuffer`, a sufficient buffer size. Otherwise 0.
    pub need: usize,
    /// The offset of the line, as the caller numbered it; 0 if there is no line.
    pub offset: u64,
    /// The lane of the bytes, 0 to 15; 0 if there are none.
    pub lane: u8,
    /// The number of the line's kind; 0 if there is no line.
    pub kind: u8,
    /// The group of the line; 255 if the line has none.
    pub group: u8,
}

impl Piece {
    /// Returns the piece of a packet without bytes and without a line.
    #[inline(always)]
    pub fn none() -> Piece
        ensures { result ≡ no_piece }
    {
        Piece::needing(0)
    }

    /// Returns the piece of a packet that wasn't taken because the buffer was too small. `size` is a
    /// sufficient buffer size.
    #[inline(always)]
    pub fn needing(size: usize) -> Piece
        ensures { result ≡ needing size }
    {
        Piece {
            written: 0,
            need: size,
            offset: 0,
            lane: 0,
            kind: 0,
            group: 255,
        }
    }

    /// Returns the piece of a packet, with the number of bytes written, their lane and the line.
    #[inline(always)]
    pub fn of(written: usize, lane: U4, listed: Option<Listed>) -> Piece
        ensures { result ≡ piece_shown written lane listed }
    {
        let lane = lane.get();
        match listed {
            None => Piece {
                written,
                need: 0,
                offset: 0,
                lane,
                kind: 0,
                group: 255,
            },
            Some(listed) => Piece {
                written,
                need: 0,
                offset: listed.offset,
                lane,
                kind: kind_number(listed.kind),
                group: match listed.group {
                    None => 255,
                    Some(group) => group.get(),
                },
            },
        }
    }
}
