// The rules that a setup must keep.
ghost use Rattle.std.specs.Prelude.{◌≡◌};
ghost use Rattle.function_blocks.specs.Rules.{broken as broken_rule, number_of};

use thiserror::Error;

/// A rule of the setup (own rules), named for its condition. The rules are tested in this order. The rules
/// for blocks are tested for one block after the other, and so are those for profiles. A missing key breaks
/// its rule, except for `block` and `profile`.
#[derive(Clone, Copy, Debug, PartialEq, Eq)]
pub enum Rule {
    /// The text has at most 65,536 bytes.
    TextIsShort,
    /// `endpoint` is a table.
    EndpointIsATable,
    /// `endpoint.name` is a text of 1 to 98 bytes of UTF-8.
    NameIsShort,
    /// `endpoint.id` is a text of 1 to 42 bytes, each 32 to 126.
    IdIsPrintable,
    /// `endpoint.manufacturer` is a list of three numbers 0 to 127.
    ManufacturerIsThreeNumbers,
    /// `endpoint.family` is 0 to 16,383.
    FamilyIsInRange,
    /// `endpoint.model` is 0 to 16,383.
    ModelIsInRange,
    /// `endpoint.revision` is a list of four numbers 0 to 127.
    RevisionIsFourNumbers,
    /// `endpoint.midi1` and `endpoint.midi2` are booleans, not both false.
    SomeProtocolIsThere,
    /// `endpoint.protocol` is 1 or 2, and `midi1` or `midi2` of that number is true.
    ProtocolIsThere,
    /// `endpoint.static` is a boolean.
    StaticIsAFlag,
    /// `block` is absent, or a list of at most 32 tables.
    BlocksAreTables,
    /// `active` is a boolean.
    ActiveIsAFlag,
    /// `name` is a text of 1 to 91 bytes of UTF-8.
    BlockNameIsShort,
    /// `hint` is 0 to 3.
    HintIsInRange,
    /// `midi1` is 0 to 2.
    Midi1IsInRange,
    /// `direction` is 1 to 3.
    DirectionIsInRange,
    /// `first` is 0 to 15.
    FirstIsAGroup,
    /// `count` is 1 to 16, and `first + count` is at most 16.
    GroupsEndWithinSixteen,
    /// `ci` is 0 to 2.
    CiIsInRange,
    /// `sysex8` is 0 to 255.
    Sysex8IsInRange,
    /// `muids` is a list of at most 16 numbers 0 to 268,435,199, with at least one if `ci` isn't 0.
    MuidsAreInRange,
    /// No two active blocks whose `ci` isn't 0 share a group.
    BlocksThatHaveCiShareNoGroup,
    /// No number appears twice in all `muids` together.
    MuidsAreDistinct,
    /// `profile` is absent, or a list of at most 64 tables.
    ProfilesAreTables,
    /// `block` is the number of a block whose `ci` isn't 0, counted from 0.
    ProfileBlockNamesCi,
    /// `place` is `"function"`, `"group"` or `"channel"`.
    PlaceIsKnown,
    /// For a group or a channel, `group` is a group of the block.
    GroupIsOfTheBlock,
    /// For a channel, `channel` is 0 to 15.
    ChannelIsInRange,
    /// `id` is a list of five numbers 0 to 127.
    ProfileIdIsFiveNumbers,
    /// `on` is a boolean.
    OnIsAFlag,
    /// No two profiles have the same block, place and id.
    ProfilesAreDistinct,
}

impl Rule {
    /// Returns the number of the rule, 0 to 31, which `SetupFault::Field` carries (own rule).
    pub fn number(self) -> u8
        ensures { result ≡ number_of self }
    {
        self as u8
    }
}

/// Says why a text isn't a setup.
#[derive(Clone, Copy, Debug, PartialEq, Eq, Error)]
pub enum SetupFault {
    /// The text isn't UTF-8, or isn't TOML.
    #[error("the setup is not TOML")]
    Syntax,
    /// The text breaks the rule of this number, and no earlier rule.
    #[error("the setup breaks rule {0}")]
    Field(u8),
    /// The call ran out of memory.
    #[error("there is no memory for the setup")]
    NoMemory,
}

/// Returns the fault for a broken rule.
pub(crate) fn broken(rule: Rule) -> SetupFault
    ensures { result ≡ broken_rule rule }
{
    SetupFault::Field(rule.number())
}
