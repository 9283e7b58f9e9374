// Numbers in decimal digits.
use midi_lines::{Line, put_decimal};

#[test]
fn numbers_of_each_length(rt: HostRuntime) {
    for (number, text) in [
        (0, "0"),
        (9, "9"),
        (10, "10"),
        (99, "99"),
        (100, "100"),
        (255, "255"),
        (256, "256"),
        (1_005, "1005"),
        (9_999, "9999"),
        (10_000, "10000"),
        (1_000_070, "1000070"),
        (99_999_999, "99999999"),
        (100_000_000, "100000000"),
        (4_200_000_301, "4200000301"),
        (4_294_967_295, "4294967295"),
        (4_294_967_296, "4294967296"),
        (18_446_744_073_709_551_615, "18446744073709551615"),
    ] {
        let mut line = Line::new();
        put_decimal(&mut line, number);
        assert!(rt; line.as_slice() == text.as_bytes(), "{text}");
    }
}
