// The counts of a test.
ghost use Rattle.std.specs.Prelude.{◌≡◌, IfOk};
ghost use Rattle.self_test.specs.Counts.{counted};

use crate::course::Course;
use crate::generator::Generator;
use small_types::NoMemory;
use std::alloc::Global;

/// The counts of a test.
#[derive(Clone, Copy, Debug, PartialEq, Eq)]
pub struct Counts {
    /// The number of packets that are carried, each with a piece.
    pub carried: u64,
    /// The number of lines that the first way down lists.
    pub listed: u64,
    /// The number of bytes in all pieces of the first way down.
    pub bytes: u64,
    /// The number of bytes in the pieces of the second way down, to which the bytes of the first are brought
    /// back.
    pub again: u64,
}

/// Counts over the first packets that a seed generates (own rule). The packets are translated down in plain
/// style, the bytes of their pieces are translated up in group 0, and the packets of these bytes are
/// translated down again in plain style. There is no exclusive among them. Returns `NoMemory` if there isn't
/// the memory that the three translators reserve at first. No more memory is allocated, however many packets
/// there are.
pub fn count(alloc: Global, seed: u32, packets: u32) -> Result<Counts, NoMemory>
    ensures { IfOk result (λ counts. counts ≡ counted seed packets) }
{
    let mut generator = Generator::new(seed);
    let mut course = Course::new(alloc)?;
    for index in 0..packets {
        let packet = generator.next();
        course.take(&packet, u64::from(index) * 8);
    }
    Ok(course.counts())
}
