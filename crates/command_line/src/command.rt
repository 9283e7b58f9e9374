// The command that a command line gives.
use crate::endpoint::EndpointOptions;
use crate::self_test::SelfTestOptions;
use crate::show::{ByteLineOptions, PacketLineOptions};
use crate::sysex8::Sysex8Options;
use crate::translate::{BackOptions, DownOptions, UpOptions};
use crate::usb::PackOptions;

/// The command that a command line gives: the names in it, and the options of the command's pass.
#[derive(Clone, Copy, Debug, PartialEq, Eq)]
pub enum Command<'a> {
    /// `translate down`: translates words to a MIDI 1.0 stream for each group, in this folder.
    Down {
        folder: &'a str,
        options: DownOptions,
    },
    /// `translate up`: translates MIDI 1.0 bytes to words of one group.
    Up(UpOptions),
    /// `translate back`: translates MIDI 1.0 bytes to words of one group, and these to bytes again.
    Back(BackOptions),
    /// `show`: writes the packets that words spell as lines.
    Show(PacketLineOptions),
    /// `show --bytes`: writes the messages of MIDI 1.0 bytes as lines.
    ShowBytes(ByteLineOptions),
    /// `endpoint`: answers the exclusives and stream messages in words with the endpoint of this setup. The
    /// name of the setup may be any text, even the empty one.
    Endpoint {
        setup: &'a str,
        options: EndpointOptions,
    },
    /// `usb split`: splits USB-MIDI 1.0 events into a MIDI 1.0 stream for each cable, in this folder.
    UsbSplit {
        folder: &'a str,
    },
    /// `usb pack`: packs MIDI 1.0 bytes into events of one cable.
    UsbPack(PackOptions),
    /// `sysex8`: joins the 8-bit exclusives in words, and writes their bytes to a file for each group, in
    /// this folder.
    Sysex8 {
        folder: &'a str,
        options: Sysex8Options,
    },
    /// `rehearse`: writes the events of a rehearsal as lines. The rehearsal is between a MIDI-CI initiator
    /// and the responder of this setup. The name of the setup may be any text, even the empty one.
    Rehearse {
        setup: &'a str,
    },
    /// `clip`: writes the packets of a clip file as lines.
    Clip,
    /// `selftest`: generates packets from a seed, translates them down, up and down again, and counts them.
    SelfTest(SelfTestOptions),
}

/// Says why arguments give no command.
#[derive(Clone, Copy, Debug, PartialEq, Eq)]
pub enum WordsFault {
    /// The arguments aren't a valid command line.
    Usage,
    /// There wasn't enough memory to parse the arguments.
    NoMemory,
}
