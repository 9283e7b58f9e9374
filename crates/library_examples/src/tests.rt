// What docs/library.md shows of the crates as libraries.
ghost use Rattle.std.specs.Prelude.{◌≡◌, true};

use down_translator::{Down, Style};
use midi_edge::{MemLanes, MemSink, MemSource};
use midi1_bytes::{Parser, Step, U4, U7, Voice1};
use outside::Lanes;
use std::alloc::Global;
use std::test::Fail;
use ump_grammar::decode;
use ump_words::{Order, WordReader, put_words};
use up_translator::Up;

// Puts the MIDI 1.0 bytes of each packet into the lane of its group.
fn translate_down(alloc: Global, input: &mut MemSource, lanes: &mut MemLanes) -> Result<(), Fail>
    requires { lanes.old.begun ≡ true }
{
    let mut reader = WordReader::new(Order::Big, 1_000_000);
    let mut down = Down::new(alloc, 1_024, Style::Plain, false)?;
    while let Some(framed) = reader.next(input)? {
        let packet = decode(&framed)?;
        let carried = down.packet(&packet, framed.offset)?;
        if !carried.piece.is_empty() {
            lanes.put(carried.lane(), carried.piece)?;
        }
    }
    Ok(())
}

// Puts the words of the packet that each byte completes.
fn translate_up(alloc: Global, bytes: &[u8], output: &mut MemSink) -> Result<(), Fail> {
    let mut up = Up::new(alloc, U4::low_bits(0), 1_024, false)?;
    for (offset, byte) in bytes.iter().enumerate() {
        let raised = up.byte(*byte, offset as u64)?;
        if let Some(packet) = raised.packet {
            put_words(packet.words().as_slice(), Order::Big, output)?;
        }
    }
    Ok(())
}

// The first note that a stream begins.
fn first_note(alloc: Global, bytes: &[u8]) -> Result<Option<U7>, Fail> {
    let mut parser = Parser::new(alloc, 1_024)?;
    for (offset, byte) in bytes.iter().enumerate() {
        if let Step::Voice(spoken) = parser.byte(*byte, offset as u64) {
            if let Voice1::NoteOn { note, .. } = spoken.message() {
                return Ok(Some(note));
            }
        }
    }
    Ok(None)
}

#[test]
fn packets_go_down(rt: HostRuntime) -> Result<(), Fail> {
    let alloc = rt.alloc();
    let mut bytes = Vec::new(alloc);
    for word in [0x40903C00u32, 0xC9240000, 0x41904000, 0x01FF0000] {
        bytes.extend_from_slice(&word.to_be_bytes())?;
    }
    let mut input = MemSource::new(bytes, Vec::new(alloc), Vec::new(alloc));
    let mut lanes = MemLanes::new(alloc, 64, 16, Vec::new(alloc))?;
    lanes.begin("F")?;
    translate_down(alloc, &mut input, &mut lanes)?;
    for (k, (group, piece)) in [(0, [0x90, 0x3C, 0x64]), (1, [0x90, 0x40, 0x01])]
        .iter()
        .enumerate()
    {
        match lanes.entry(k) {
            Some((found, bytes)) => {
                assert_eq!(rt; found.get(), *group);
                assert_eq!(rt; bytes, piece.as_slice());
            }
            None => assert!(rt; false, "no piece {k}"),
        }
    }
    Ok(())
}

#[test]
fn bytes_go_up(rt: HostRuntime) -> Result<(), Fail> {
    let alloc = rt.alloc();
    let mut output = MemSink::new(alloc, 64, Vec::new(alloc))?;
    translate_up(alloc, &[0x90, 0x3C, 0x64, 0x3E, 0xF8, 0x64], &mut output)?;
    let words = [
        0x40, 0x90, 0x3C, 0x00, 0xC9, 0x24, 0x00, 0x00, 0x10, 0xF8, 0x00, 0x00, 0x40, 0x90, 0x3E,
        0x00, 0xC9, 0x24, 0x00, 0x00,
    ];
    assert_eq!(rt; output.held(), words.as_slice());
    Ok(())
}

#[test]
fn a_note_is_found(rt: HostRuntime) -> Result<(), Fail> {
    let stream = [0xF8, 0x90, 0x3C, 0xFE, 0x64, 0x3E, 0x64];
    match first_note(rt.alloc(), &stream)? {
        Some(note) => assert_eq!(rt; note.get(), 0x3C),
        None => assert!(rt; false, "no note"),
    }
    assert!(rt; first_note(rt.alloc(), &[0x3C, 0x64, 0x90, 0x3C])?.is_none());
    Ok(())
}
