// Rows of the lines of `endpoint`: an offset, a group or a hyphen, and an outcome as the source names it. The line
// of it comes of that.
use crate::listings::group_of;
use crate::text_after;
use anyhow::{Result, bail};
use command_rows::push_lines;
use midi_lines::{OutcomeName, endpoint_line};
use std::alloc::Global;

/// The line of the outcome of a row.
pub(crate) fn told_of(alloc: Global, lines: &str) -> Result<String> {
    let text = text_after(lines, "outcome").unwrap_or("");
    let mut told = String::new(alloc);
    tell(&mut told, text)?;
    Ok(told)
}

fn tell(told: &mut String, text: &str) -> Result<()> {
    told.push_str("Done")?;
    let mut cells = text.splitn(3, ' ');
    let (Some(offset), Some(group), Some(name)) = (cells.next(), cells.next(), cells.next()) else {
        bail!("an outcome has an offset, a group and a name");
    };
    let line = endpoint_line(offset.parse::<u64>()?, group_of(group)?, outcome_of(name)?);
    push_lines(told, "line", line.as_slice())
}

fn outcome_of(name: &str) -> Result<OutcomeName> {
    Ok(match name {
        "NotCi" => OutcomeName::NotCi,
        "Short" => OutcomeName::Short,
        "BadAddress" => OutcomeName::BadAddress,
        "ReservedMuid" => OutcomeName::ReservedMuid,
        "NoBlock" => OutcomeName::NoBlock,
        "Silent" => OutcomeName::Silent,
        "Collision" => OutcomeName::Collision,
        "OldVersion" => OutcomeName::OldVersion,
        "NotOurs" => OutcomeName::NotOurs,
        "Moved" => OutcomeName::Moved,
        "Report" => OutcomeName::Report,
        "Broadcast" => OutcomeName::Broadcast,
        "Answered" => OutcomeName::Answered,
        "Passed" => OutcomeName::Passed,
        "Nak" => OutcomeName::Nak,
        "NoAnswer" => OutcomeName::NoAnswer,
        "BadFormat" => OutcomeName::BadFormat,
        _ => bail!("there is no such outcome"),
    })
}
