// The lines of the command `endpoint` at its end. The rows of `worked_rows` tell of the outcomes.
use function_blocks::{Place, Profile};
use midi_lines::{block_line, profile_line, protocol_line};
use voice_messages::{U4, U7};

#[test]
fn lines_of_the_protocol(rt: HostRuntime) {
    for (protocol, text) in [(1, "protocol 1\n"), (2, "protocol 2\n")] {
        assert_eq!(rt; protocol_line(protocol).as_slice(), text.as_bytes());
    }
}

#[test]
fn lines_of_blocks(rt: HostRuntime) {
    for (number, muid, text) in [
        (0, Some(0x01234567), "block 0 muid 19088743\n"),
        (31, Some(0x0FFFFEFF), "block 31 muid 268435199\n"),
        (9, Some(0), "block 9 muid 0\n"),
        (0, None, "block 0 silent\n"),
    ] {
        assert_eq!(rt;
            block_line(number, muid).as_slice(),
            text.as_bytes(),
            "{text}"
        );
    }
}

// Whether the line of a profile that is on or off now, and was the other at first, is the text.
fn is_profile(block: u8, place: Place, id: &[u8; 5], on: bool, text: &str) -> bool {
    let id = [
        U7::low_bits(id[0] as u32),
        U7::low_bits(id[1] as u32),
        U7::low_bits(id[2] as u32),
        U7::low_bits(id[3] as u32),
        U7::low_bits(id[4] as u32),
    ];
    let profile = Profile {
        block,
        place,
        id,
        on: !on,
    };
    profile_line(&profile, on).as_slice() == text.as_bytes()
}

const FIRST_ID: &'static [u8; 5] = &[0x7E, 0x00, 0x01, 0x01, 0x00];

const SECOND_ID: &'static [u8; 5] = &[0x00, 0x0A, 0x21, 0x00, 0x7F];

fn place_of_channel() -> Place {
    Place::Channel(U4::low_bits(0), U4::low_bits(2))
}

#[test]
fn lines_of_profiles(rt: HostRuntime) {
    let group = Place::Group(U4::low_bits(15));
    for (block, place, id, on, text) in [
        (
            0,
            place_of_channel(),
            FIRST_ID,
            false,
            "profile 0 channel 0 2 7E00010100 off\n",
        ),
        (
            0,
            place_of_channel(),
            FIRST_ID,
            true,
            "profile 0 channel 0 2 7E00010100 on\n",
        ),
        (
            3,
            Place::Function,
            SECOND_ID,
            true,
            "profile 3 function 000A21007F on\n",
        ),
        (
            31,
            group,
            FIRST_ID,
            false,
            "profile 31 group 15 7E00010100 off\n",
        ),
    ] {
        assert!(rt; is_profile(block, place, id, on, text), "{text}");
    }
}
