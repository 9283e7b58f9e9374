// Reading on after a failed read, and what is told to people. The rows of `worked_rows` tell of the
// rest.
use super::is_same;
use midi_edge::MemSource;
use outside::{Failed, ReadStop};
use small_types::U4;
use std::test::Fail;
use usb_midi1::*;

type Answer = Result<Option<(Event, u64)>, ReadStop>;

const FAILED: Answer = Err(ReadStop::Read(Failed));

#[test]
fn a_failed_take_loses_no_event(rt: HostRuntime) -> Result<(), Fail> {
    let alloc = rt.alloc();
    let mut source = MemSource::new(
        Vec::from_slice(alloc, &[0x29, 0x90, 0x3C, 0x64, 0x0F, 0xF8, 0, 0])?,
        Vec::from_slice(alloc, &[3, 3])?,
        Vec::from_slice(alloc, &[0, 2, 4])?,
    );
    let note = Event {
        cable: U4::low_bits(2),
        code: U4::low_bits(9),
        bytes: [0x90, 0x3C, 0x64],
    };
    let clock = Event {
        cable: U4::low_bits(0),
        code: U4::low_bits(15),
        bytes: [0xF8, 0, 0],
    };
    let answers: [Answer; 7] = [
        FAILED,
        FAILED,
        Ok(Some((note, 0))),
        FAILED,
        Ok(Some((clock, 4))),
        Ok(None),
        Ok(None),
    ];
    let mut reader = EventReader::new(8);
    for answer in &answers {
        is_same(&rt, &reader.next(&mut source), answer);
    }
    Ok(())
}

#[test]
fn too_long_has_its_text(rt: HostRuntime) -> Result<(), Fail> {
    let shown = format!(in rt.alloc(); "{}", TooLong)?;
    is_same(
        &rt,
        &shown.as_str(),
        &"an exclusive is longer than the limit",
    );
    Ok(())
}
