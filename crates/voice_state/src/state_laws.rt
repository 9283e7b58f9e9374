// Laws that hold for a state while packets or bytes arrive.
ghost use Rattle.voice_state.specs.StateLaws.{BytesAreKept, PacketsAreKept};

/// Proves that a state that has taken all packets, and counted each exclusive that they end, stands for the
/// meaning of the packets in each group.
pub fn packets_are_kept()
    ensures { PacketsAreKept }
{}

/// Proves that a state that has taken, in group 0, each voice message that bytes complete, and counted each
/// other message, stands for the meaning of the bytes.
pub fn bytes_are_kept()
    ensures { BytesAreKept }
{}
