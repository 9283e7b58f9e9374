// What a row gives to a run.
use crate::texts::push_hex;
use anyhow::{Result, bail};
use endpoint_fixtures::DEMO_SETUP;
use std::alloc::Global;

/// What a run is given: the words of the command, its input, the text of the setup named `a.toml`, how the
/// input is cut into pieces, and which reads and writes fail.
#[derive(Drop)]
pub struct Given<'a> {
    pub words: Option<&'a str>,
    pub input: Vec<u8>,
    pub setup: Vec<u8>,
    pub cuts: Vec<usize>,
    pub reads: Vec<u64>,
    pub fetches: Vec<u64>,
    pub lane_puts: Vec<(u64, usize)>,
    pub output_puts: Vec<(u64, usize)>,
    pub note_puts: Vec<(u64, usize)>,
}

/// Reads what these lines give. A line of an unknown kind is an error.
pub fn given_of<'a>(alloc: Global, lines: &'a str) -> Result<Given<'a>> {
    let mut given = Given {
        words: None,
        input: Vec::new(alloc),
        setup: Vec::new(alloc),
        cuts: Vec::new(alloc),
        reads: Vec::new(alloc),
        fetches: Vec::new(alloc),
        lane_puts: Vec::new(alloc),
        output_puts: Vec::new(alloc),
        note_puts: Vec::new(alloc),
    };
    for line in lines.split('\n') {
        take_line(&mut given, line)?;
    }
    Ok(given)
}

fn take_line<'a>(given: &mut Given<'a>, line: &'a str) -> Result<()> {
    let (kind, rest) = line.split_once(' ').unwrap_or((line, ""));
    match kind {
        "#" => {}
        "run" => given.words = Some(rest),
        "input" => push_hex(&mut given.input, rest)?,
        "input-ends-after" => given.input.truncate(rest.parse::<usize>()?),
        "cut" => given.cuts.push(rest.parse::<usize>()?)?,
        "cuts-of-one" => given.cuts.resize(rest.parse::<usize>()?, 1)?,
        "demo-setup" => given.setup.extend_from_slice(DEMO_SETUP.as_bytes())?,
        "setup-line" => {
            given.setup.extend_from_slice(rest.as_bytes())?;
            given.setup.push(b'\n')?;
        }
        "setup-bytes" => push_hex(&mut given.setup, rest)?,
        "setup-filled" => given.setup.resize(rest.parse::<usize>()?, b'#')?,
        "read-fails" => given.reads.push(rest.parse::<u64>()?)?,
        "fetch-fails" => given.fetches.push(rest.parse::<u64>()?)?,
        "lane-fails" => given.lane_puts.push(failing_put(rest)?)?,
        "output-fails" => given.output_puts.push(failing_put(rest)?)?,
        "note-fails" => given.note_puts.push(failing_put(rest)?)?,
        _ => bail!("a line is of no kind that a row of a command has"),
    }
    Ok(())
}

// The number of a write that fails, and how many of its bytes are kept.
fn failing_put(text: &str) -> Result<(u64, usize)> {
    let Some((put, kept)) = text.split_once(' ') else {
        bail!("a write that fails has two numbers");
    };
    Ok((put.parse::<u64>()?, kept.parse::<usize>()?))
}
