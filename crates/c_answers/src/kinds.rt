// The numbers that the header gives to the kinds of lines.
ghost use Rattle.std.specs.Prelude.{◌≡◌};
ghost use Rattle.c_answers.specs.Numbers.{kind_number};

use listing_terms::Kind;

/// Returns the number of a kind, from 1 on.
pub fn kind_number(kind: Kind) -> u8
    ensures { result ≡ kind_number kind }
{
    match kind {
        Kind::Utility => 1,
        Kind::Stream => 2,
        Kind::Reserved => 3,
        Kind::Data8 => 4,
        Kind::Flex => 5,
        Kind::NoteAttribute => 6,
        Kind::NoteController => 7,
        Kind::NoteBend => 8,
        Kind::NoteManagement => 9,
        Kind::NullParameter => 10,
        Kind::RelativeParameter => 11,
        Kind::MisplacedController => 12,
        Kind::FineController => 13,
        Kind::StrayExclusive => 14,
        Kind::CutExclusive => 15,
        Kind::OpenExclusive => 16,
        Kind::Stray => 17,
        Kind::Undefined => 18,
        Kind::CutMessage => 19,
        Kind::OpenMessage => 20,
        Kind::IgnoredDataEntry => 21,
    }
}
