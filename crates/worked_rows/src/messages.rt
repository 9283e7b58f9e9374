// Rows of messages of MIDI-CI: the bytes between F0 and F7, and the view that they are read as, or why they
// are refused.
use crate::text_after;
use anyhow::{Result, bail};
use ci_messages::read;
use command_rows::push_hex;
use endpoint_fixtures::framed;
use std::alloc::Global;

/// The view of the message of a row, or why it is refused.
pub(crate) fn told_of(alloc: Global, lines: &str) -> Result<String> {
    let mut bytes = Vec::new(alloc);
    push_hex(&mut bytes, text_after(lines, "message").unwrap_or(""))?;
    let mut told = String::new(alloc);
    tell(&mut told, bytes.as_slice())?;
    Ok(told)
}

fn tell(told: &mut String, payload: &[u8]) -> Result<()> {
    let Some(message) = framed(payload) else {
        bail!("the bytes are no exclusive of 510 data bytes at most");
    };
    match read(message.as_slice()) {
        Ok(view) => write!(told, "{view:?}")?,
        Err(fault) => write!(told, "{fault:?}")?,
    }
    Ok(())
}
