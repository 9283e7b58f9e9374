// The outcome of a packet.
ghost use Rattle.std.specs.Prelude.{◌==◌, if◌then◌else◌, length};

use crate::pieces::Piece;
use midi_meaning::{Kind, Listed};
use small_types::{LentU4, U4};

// A line of the listing that can be lent. A value that is lent can't contain a type that contracts see as
// another value, such as the group in `Listed`.
#[derive(Clone, Copy, Debug)]
struct LentLine {
    offset: u64,
    group: Option<LentU4>,
    kind: Kind,
}

impl LentLine {
    ghost use Rattle.std.specs.Prelude.{◌≡◌};
    ghost use Rattle.down_translator.specs.Carried.{listed_by};

    fn of(listed: Listed) -> LentLine
        ensures { listed_by result ≡ listed }
    {
        let Listed {
            offset,
            group,
            kind,
        } = listed;
        let group = match group {
            None => None,
            Some(group) => Some(LentU4::of(group)),
        };
        LentLine {
            offset,
            group,
            kind,
        }
    }

    fn get(self) -> Listed
        ensures { result ≡ listed_by self }
    {
        let group = match self.group {
            None => None,
            Some(group) => Some(group.get()),
        };
        Listed {
            offset: self.offset,
            group,
            kind: self.kind,
        }
    }
}

/// The outcome of a packet.
#[derive(Clone, Copy, Debug)]
pub struct Carried<'a> {
    /// The MIDI 1.0 bytes of the packet, empty exactly if the packet isn't translated.
    pub piece: &'a [u8],
    lane: LentU4,
    line: Option<LentLine>,
}

impl<'a> Carried<'a> {
    ghost use Rattle.std.specs.Prelude.{◌≡◌, [], Some, None};
    ghost use Rattle.down_translator.specs.Carried.{lane_in, line_in};

    /// Creates an outcome with a piece in a lane.
    pub(crate) fn new(lane: U4, piece: &'a [u8], listed: Option<Listed>) -> Carried<'a>
        ensures lane { lane_in result ≡ lane }
        ensures piece { result.piece.now ≡ piece.now }
        ensures line { line_in result ≡ listed }
    {
        let line = match listed {
            None => None,
            Some(listed) => Some(LentLine::of(listed)),
        };
        Carried {
            piece,
            lane: LentU4::of(lane),
            line,
        }
    }

    /// Creates an outcome with a piece in the lane of its group, or without a lane if the piece is empty.
    pub(crate) fn lent(group: U4, piece: &'a Piece, listed: Option<Listed>) -> Carried<'a>
        ensures lane { lane_in result ≡ (if length piece.now == 0 then 0 else group) }
        ensures piece { result.piece.now ≡ piece.now }
        ensures line { line_in result ≡ listed }
    {
        let lane = if piece.is_empty() {
            U4::low_bits(0)
        } else {
            group
        };
        Carried::new(lane, piece.as_slice(), listed)
    }

    /// Creates an outcome without a piece or a line.
    pub(crate) fn nothing() -> Carried<'a>
        ensures lane { lane_in result ≡ 0 }
        ensures piece { result.piece.now ≡ [] }
        ensures line { line_in result ≡ None }
    {
        Carried::new(U4::low_bits(0), &[], None)
    }

    /// Creates an outcome with a line only.
    pub(crate) fn only_listed(offset: u64, group: Option<U4>, kind: Kind) -> Carried<'a>
        ensures lane { lane_in result ≡ 0 }
        ensures piece { result.piece.now ≡ [] }
        ensures line { line_in result ≡ Some (record { offset = offset; group = group; kind = kind }) }
    {
        let listed = Listed {
            offset,
            group,
            kind,
        };
        Carried::new(U4::low_bits(0), &[], Some(listed))
    }

    /// Returns the lane: the packet's group if the packet is translated, and otherwise 0.
    pub fn lane(&self) -> U4
        ensures { result ≡ lane_in self.now }
    {
        self.lane.get()
    }

    /// Returns the line of the listing, if the packet has one.
    pub fn listed(&self) -> Option<Listed>
        ensures { result ≡ line_in self.now }
    {
        match self.line {
            None => None,
            Some(line) => Some(line.get()),
        }
    }
}
