// Worked rows of the slow program, and the parser beside it on bytes that look random. The rows of
// `worked_rows` tell of the parser.
use super::{is_same, is_same_in};
use midi1_bytes::slow::{SlowStep, slow_step};
use midi1_bytes::*;
use std::alloc::{AllocError, Global};
use std::process::Abort;
use std::test::Fail;

// Runs the slow program over the bytes with a limit of two bytes.
fn check_row(
    rt: &impl Abort,
    alloc: Global,
    bytes: &[u8],
    steps: &[SlowStep],
) -> Result<(), AllocError> {
    let mut past = Vec::new(alloc);
    is_same(rt, &bytes.len(), &steps.len());
    for (&byte, &step) in bytes.iter().zip(steps) {
        is_same_in(rt, &byte, &slow_step(past.as_slice(), byte, 2), &step);
        past.insert(0, byte)?;
    }
    Ok(())
}

fn note_on(note: u8, velocity: u8) -> SlowStep {
    SlowStep::Voice(Voice1::NoteOn {
        channel: U4::low_bits(0),
        note: U7::low_bits(u32::from(note)),
        velocity: U7::low_bits(u32::from(velocity)),
    })
}

// What a status byte cuts off, and what else comes of it.
fn cut(start: usize, what: CutKind, after: AfterCut) -> SlowStep {
    SlowStep::Cut { start, what, after }
}

fn held() -> SlowStep {
    SlowStep::Held
}

fn clock() -> SlowStep {
    SlowStep::RealTime(System::Clock)
}

fn begins(start: usize) -> SlowStep {
    cut(start, CutKind::Message, AfterCut::Begins)
}

fn tune_in_exclusive(start: usize) -> SlowStep {
    cut(start, CutKind::Exclusive, AfterCut::Tune)
}

#[test]
fn running_status_goes_on_behind_real_time(rt: HostRuntime) -> Result<(), Fail> {
    let bytes = [0x90, 60, 100, 62, 0xf8, 100];
    let steps = [
        held(),
        held(),
        note_on(60, 100),
        held(),
        clock(),
        note_on(62, 100),
    ];
    check_row(&rt, rt.alloc(), &bytes, &steps)?;
    let bytes = [0x90, 60, 100, 62, 0xf8, 0xf1];
    let steps = [held(), held(), note_on(60, 100), held(), clock(), begins(3)];
    check_row(&rt, rt.alloc(), &bytes, &steps)?;
    Ok(())
}

#[test]
fn what_is_open_is_cut(rt: HostRuntime) -> Result<(), Fail> {
    let bytes = [5, 0x90, 60, 0xf0, 1, 0xf6, 0xf7];
    let steps = [
        SlowStep::Stray,
        held(),
        held(),
        begins(1),
        held(),
        tune_in_exclusive(3),
        SlowStep::Stray,
    ];
    check_row(&rt, rt.alloc(), &bytes, &steps)?;
    let steps = [held(), held(), held(), SlowStep::Exclusive(2)];
    check_row(&rt, rt.alloc(), &[0xf0, 1, 2, 0xf7], &steps)?;
    let steps = [
        held(),
        held(),
        held(),
        SlowStep::TooLong,
        SlowStep::Stray,
        SlowStep::Stray,
    ];
    check_row(&rt, rt.alloc(), &[0xf0, 1, 2, 3, 4, 0xf7], &steps)?;
    Ok(())
}

#[test]
fn the_low_bits_come_first(rt: HostRuntime) {
    let centre = Voice1::Bend {
        channel: U4::low_bits(2),
        value: U14::low_bits(8192),
    };
    is_same(
        &rt,
        &write_voice(&centre).as_slice(),
        &[0xe2, 0, 0x40].as_slice(),
    );
    let position = System::Position(U14::low_bits(129));
    is_same(
        &rt,
        &write_system(&position).as_slice(),
        &[0xf2, 1, 1].as_slice(),
    );
    is_same(
        &rt,
        &write_system(&System::Tune).as_slice(),
        &[0xf6].as_slice(),
    );
}

// What the parser says, in the words of the slow program.
fn told(step: &Step<'_>) -> SlowStep {
    match *step {
        Step::Held => SlowStep::Held,
        Step::Voice(bytes) => SlowStep::Voice(bytes.message()),
        Step::Common(bytes) => SlowStep::Common(bytes.message()),
        Step::RealTime(byte) => SlowStep::RealTime(byte.message()),
        Step::Exclusive(bytes) => SlowStep::Exclusive(bytes.len().saturating_sub(2)),
        Step::Stray => SlowStep::Stray,
        Step::Undefined => SlowStep::Undefined,
        Step::Cut { start, what, after } => cut(start as usize, what, after),
        Step::TooLong => SlowStep::TooLong,
    }
}

// The next of a series of numbers that look random.
fn next(number: u32) -> u32 {
    number.wrapping_mul(1_664_525).wrapping_add(1_013_904_223)
}

// A byte of a number: data bytes mostly, and more system messages than voice messages, exclusives above all.
fn byte_of(number: u32) -> u8 {
    let low = (number / 0x10000 % 256) as u8;
    match number / 0x100_0000 % 16 {
        0..=10 => low % 128,
        11 => 0xf0,
        12..=13 => 0xf0 + low % 16,
        _ => 0x80 + low % 128,
    }
}

#[test]
fn the_parser_says_what_the_slow_program_says(rt: HostRuntime) -> Result<(), Fail> {
    let mut number = 1u32;
    for _ in 0..100usize {
        let Ok(mut parser) = Parser::new(rt.alloc(), 6) else {
            assert!(rt; false, "memory is ample");
            return Ok(());
        };
        let mut past = Vec::new(rt.alloc());
        for offset in 0..100u64 {
            number = next(number);
            let byte = byte_of(number);
            let slow = slow_step(past.as_slice(), byte, 6);
            is_same_in(&rt, &offset, &told(&parser.byte(byte, offset)), &slow);
            past.insert(0, byte)?;
        }
    }
    Ok(())
}
