// Rows of the bytes of a MIDI 1.0 stream, and the lines of the messages that they complete, where an exclusive
// has room for six bytes.
use crate::text_after;
use anyhow::{Result, bail};
use command_rows::{push_hex, push_lines};
use midi_lines::step_line;
use midi1_bytes::Parser;
use std::alloc::Global;

/// The lines of the messages that the bytes of a row complete.
pub(crate) fn told_of(alloc: Global, lines: &str) -> Result<String> {
    let mut bytes = Vec::new(alloc);
    push_hex(&mut bytes, text_after(lines, "steps").unwrap_or(""))?;
    let Ok(mut parser) = Parser::new(alloc, 6) else {
        bail!("there is no memory");
    };
    let mut told = String::new(alloc);
    tell(&mut told, &mut parser, bytes.as_slice())?;
    Ok(told)
}

fn tell(told: &mut String, parser: &mut Parser, bytes: &[u8]) -> Result<()> {
    told.push_str("Done")?;
    for (offset, &byte) in (0..u64::MAX).zip(bytes) {
        if let Some(line) = step_line(&parser.byte(byte, offset), offset) {
            push_lines(told, "line", line.as_slice())?;
        }
    }
    Ok(())
}
