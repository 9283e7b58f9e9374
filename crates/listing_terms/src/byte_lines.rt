// The lines of the listing for one byte.
use crate::listed::{Kind, Listed};
use small_types::{LentU4, U4};

/// A line of the listing for a byte (own rule). Its group is the byte's group.
#[derive(Clone, Copy, Debug)]
pub struct ByteLine {
    /// The offset of the line, in input bytes. For a message or exclusive that is cut off or open, it is
    /// the offset of the start. For an ignored data entry, it is the offset of the byte that completes the
    /// data entry. For a stray or undefined byte, it is the offset of that byte.
    pub offset: u64,
    /// The kind of the line.
    pub kind: Kind,
}

/// The lines of the listing for one byte (own rule): at most two, in order and both in one group. The line
/// of the message that the byte cuts off comes before the line of the byte itself. The group of a stream on
/// a USB cable is the number of the cable.
#[derive(Clone, Copy, Debug)]
pub struct ByteLines {
    group: LentU4,
    first: Option<ByteLine>,
    second: Option<ByteLine>,
}

impl ByteLines {
    ghost use Rattle.std.specs.Prelude.{◌≡◌, ◌++◌, map};
    ghost use Rattle.std.specs.Option.{option_map, option_to_list};
    ghost use Rattle.listing_terms.specs.ByteLines.{line_up};
    ghost use Rattle.listing_terms.specs.ByteLines.{
      first_in,
      group_of,
      has_none,
      line_by,
      lines_in,
      second_in,
      told_of,
      AreInOrder,
      IsInOrder,
    };

    /// Creates the lines in this group, 0 to 15. There is a second line only if there is a first.
    pub fn new(group: U4, first: Option<ByteLine>, second: Option<ByteLine>) -> ByteLines
        requires { AreInOrder first second }
        ensures group { group_of result ≡ group }
        ensures order { IsInOrder result }
        ensures lines { lines_in result ≡
            map (line_up group) (map told_of (option_to_list first ++ option_to_list second)) }
    {
        ByteLines {
            group: LentU4::of(group),
            first,
            second,
        }
    }

    /// Returns whether there is no line. Most bytes have none.
    #[inline(always)]
    pub fn is_empty(&self) -> bool
        ensures { result ≡ has_none self.now }
    {
        self.first.is_none() && self.second.is_none()
    }

    /// Returns the group of the lines, 0 to 15.
    pub fn group(&self) -> U4
        ensures { result ≡ group_of self.now }
    {
        self.group.get()
    }

    // Returns a line with the group.
    fn listed(&self, line: Option<ByteLine>) -> Option<Listed>
        ensures { result ≡ option_map (line_by (group_of self.now)) line }
    {
        match line {
            None => None,
            Some(ByteLine { offset, kind }) => Some(Listed {
                offset,
                group: Some(self.group.get()),
                kind,
            }),
        }
    }

    /// Returns the first line, if there is one: the line of the message that the byte cut off, or otherwise
    /// the line of the byte itself.
    pub fn first(&self) -> Option<Listed>
        ensures { result ≡ first_in self.now }
    {
        self.listed(self.first)
    }

    /// Returns the second line, if there is one: the line of the byte itself, if it cut something off.
    pub fn second(&self) -> Option<Listed>
        ensures { result ≡ second_in self.now }
    {
        self.listed(self.second)
    }
}
