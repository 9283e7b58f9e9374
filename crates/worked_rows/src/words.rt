// Rows of command lines: the words, and the command that they are or why they are none.
use crate::text_after;
use anyhow::Result;
use command_line::command_line;
use command_rows::words_of;
use std::alloc::Global;

/// The command that the words of a row are, or why they are none.
pub(crate) fn told_of(alloc: Global, lines: &str) -> Result<String> {
    let words = words_of(alloc, text_after(lines, "words").unwrap_or(""))?;
    let mut told = String::new(alloc);
    tell(&mut told, alloc, &words)?;
    Ok(told)
}

fn tell(told: &mut String, alloc: Global, words: &[String]) -> Result<()> {
    match command_line(alloc, words) {
        Ok(command) => write!(told, "{command:?}")?,
        Err(fault) => write!(told, "{fault:?}")?,
    }
    Ok(())
}
