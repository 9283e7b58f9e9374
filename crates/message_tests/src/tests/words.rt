// The worked rows of the reader.
use super::is_same;
use midi_edge::MemSource;
use outside::ReadStop;
use std::test::Fail;
use ump_words::{Order, WordReader, write_words};

#[test]
fn too_long_again_and_again(rt: HostRuntime) -> Result<(), Fail> {
    let alloc = rt.alloc();
    let note = [0x40, 0x90, 0x3C, 0, 0xC9, 0x24, 0, 0];
    let mut bytes = Vec::new(alloc);
    bytes.extend_from_slice(&note)?;
    bytes.extend_from_slice(&note)?;
    let mut source = MemSource::new(bytes, Vec::new(alloc), Vec::new(alloc));
    let mut reader = WordReader::new(Order::Big, 8);
    match reader.next(&mut source) {
        Ok(Some(framed)) => {
            is_same(&rt, &framed.offset, &0);
            let words = [0x40903C00, 0xC9240000];
            is_same(&rt, &framed.words.as_slice(), &words.as_slice());
        }
        _ => assert!(rt; false),
    }
    for _ in 0..2 {
        match reader.next(&mut source) {
            Err(stop) => is_same(&rt, &stop, &ReadStop::TooLong),
            Ok(_) => assert!(rt; false),
        }
    }
    Ok(())
}

#[test]
fn words_with_the_low_byte_first(rt: HostRuntime) -> Result<(), Fail> {
    let alloc = rt.alloc();
    let words = [0x40903C00, 0xC9240000];
    let bytes = write_words(&words, Order::Little);
    let little = [0, 0x3C, 0x90, 0x40, 0, 0, 0x24, 0xC9];
    is_same(&rt, &bytes.as_slice(), &little.as_slice());
    let big = [0x40, 0x90, 0x3C, 0, 0xC9, 0x24, 0, 0];
    let written = write_words(&words, Order::Big);
    is_same(&rt, &written.as_slice(), &big.as_slice());
    let mut input = Vec::new(alloc);
    input.extend_from_slice(bytes.as_slice())?;
    let mut source = MemSource::new(input, Vec::new(alloc), Vec::new(alloc));
    let mut reader = WordReader::new(Order::Little, 8);
    match reader.next(&mut source) {
        Ok(Some(framed)) => is_same(&rt, &framed.words.as_slice(), &words.as_slice()),
        _ => assert!(rt; false),
    }
    match reader.next(&mut source) {
        Ok(None) => {}
        _ => assert!(rt; false),
    }
    Ok(())
}
