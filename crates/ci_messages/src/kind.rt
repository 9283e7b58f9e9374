// The kind of a message, and the format of its fields.
ghost use Rattle.std.specs.Prelude.{◌≡◌};
ghost use Rattle.ci_messages.specs.Messages.{has_row as has_row_of};

/// The kind of a message, by its sub-id and version. There is one kind for each variant of a body.
#[derive(Clone, Copy, Debug, PartialEq, Eq)]
pub enum Kind {
    Discovery,
    DiscoveryReply,
    EndpointInquiry,
    EndpointReply,
    Invalidate,
    Nak,
    ProfileInquiry,
    ProfileReply,
    SetOn,
    SetOff,
    EnabledReport,
    DisabledReport,
    Property,
    Other,
}

// Returns whether a message of this sub-id and version has fields of its own.
fn has_row(sub: u8, version: u8) -> bool
    ensures { result ≡ has_row_of sub version }
{
    match version {
        0 => false,
        1 => !matches!(sub, 0x72 | 0x73),
        _ => true,
    }
}

impl Kind {
    ghost use Rattle.std.specs.Prelude.{◌≡◌};
    ghost use Rattle.ci_messages.specs.Messages.{kind_of};

    /// Returns the kind of a message.
    pub fn of(sub: u8, version: u8) -> Kind
        ensures { result ≡ kind_of sub version }
    {
        if !has_row(sub, version) {
            return Kind::Other;
        }
        match sub {
            0x70 => Kind::Discovery,
            0x71 => Kind::DiscoveryReply,
            0x72 => Kind::EndpointInquiry,
            0x73 => Kind::EndpointReply,
            0x7E => Kind::Invalidate,
            0x7F => Kind::Nak,
            0x20 => Kind::ProfileInquiry,
            0x21 => Kind::ProfileReply,
            0x22 => Kind::SetOn,
            0x23 => Kind::SetOff,
            0x24 => Kind::EnabledReport,
            0x25 => Kind::DisabledReport,
            0x30..=0x3F => Kind::Property,
            _ => Kind::Other,
        }
    }
}

/// Says which fields the bodies have, by the version of the message (own rule).
#[derive(Clone, Copy, Debug, PartialEq, Eq)]
pub enum Format {
    /// Version 01: some fields aren't in the message.
    Short,
    /// Version 02 and above: all fields are in the message.
    Full,
}

impl Format {
    ghost use Rattle.std.specs.Prelude.{◌≡◌};
    ghost use Rattle.ci_messages.specs.Messages.{format_of};

    /// Returns the format of a message.
    pub fn of(version: u8) -> Format
        ensures { result ≡ format_of version }
    {
        if version == 1 {
            Format::Short
        } else {
            Format::Full
        }
    }
}
