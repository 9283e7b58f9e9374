// Rows of setups: the number of a line of the setup of the tests, counted from 0, and the lines in its place,
// between which a slash stands; whether that is a setup, or which rule it breaks.
use crate::text_after;
use anyhow::{Result, bail};
use endpoint_fixtures::DEMO_SETUP;
use function_blocks::Setup;
use std::alloc::Global;

/// Whether the setup of a row is read, or why not.
pub(crate) fn told_of(alloc: Global, lines: &str) -> Result<String> {
    let row = text_after(lines, "setup").unwrap_or("");
    let (number, replacement) = row.split_once(' ').unwrap_or((row, ""));
    let mut setup = String::new(alloc);
    push_setup(&mut setup, number.parse::<usize>()?, replacement)?;
    let mut told = String::new(alloc);
    tell(&mut told, alloc, setup.as_str())?;
    Ok(told)
}

// Adds the lines of the setup, one of them replaced.
fn push_setup(setup: &mut String, number: usize, replacement: &str) -> Result<()> {
    let mut count = 0usize;
    for (k, own) in DEMO_SETUP.lines().enumerate() {
        for line in (if k == number { replacement } else { own }).split(" / ") {
            setup.push_str(line)?;
            setup.push('\n')?;
        }
        count = k;
    }
    if number > count {
        bail!("the setup has no line of this number");
    }
    Ok(())
}

fn tell(told: &mut String, alloc: Global, text: &str) -> Result<()> {
    match Setup::read(alloc, text.as_bytes()) {
        Ok(_) => told.push_str("Read")?,
        Err(fault) => write!(told, "{fault:?}")?,
    }
    Ok(())
}
