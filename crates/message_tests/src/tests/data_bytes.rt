// The small numbers at their borders.
use super::is_same_in;
use voice_messages::{U7, U14};

#[test]
fn a_data_byte_is_below_128(rt: HostRuntime) {
    for (value, number) in [(0, Some(0)), (127, Some(127)), (128, None), (255, None)] {
        let found = U7::new(value).map(|number| number.get());
        is_same_in(&rt, &value, &found, &number);
    }
}

#[test]
fn two_data_bytes_are_below_16384(rt: HostRuntime) {
    for (value, number) in [
        (0, Some(0)),
        (128, Some(128)),
        (16383, Some(16383)),
        (16384, None),
        (65535, None),
    ] {
        let found = U14::new(value).map(|number| number.get());
        is_same_in(&rt, &value, &found, &number);
    }
}
