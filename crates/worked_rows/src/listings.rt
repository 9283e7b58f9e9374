// Rows of the listing: an offset, a group or a hyphen, and a kind as the source names it; or, of a stream of
// bytes, an offset and a kind. The line of the listing comes of it.
use crate::text_after;
use anyhow::{Result, bail};
use command_rows::push_lines;
use midi_lines::{byte_listing, listing_line};
use midi_meaning::{Kind, Listed};
use std::alloc::Global;
use voice_messages::U4;

/// The line of what a row lists.
pub(crate) fn told_of(alloc: Global, lines: &str) -> Result<String> {
    let text = text_after(lines, "listed").unwrap_or("");
    let mut told = String::new(alloc);
    tell(&mut told, text)?;
    Ok(told)
}

fn tell(told: &mut String, text: &str) -> Result<()> {
    told.push_str("Done")?;
    let Some((offset, rest)) = text.split_once(' ') else {
        bail!("what is listed has an offset and a kind");
    };
    let offset = offset.parse::<u64>()?;
    match rest.split_once(' ') {
        Some((group, kind)) => {
            let line = listing_line(&Listed {
                offset,
                group: group_of(group)?,
                kind: kind_of(kind)?,
            });
            push_lines(told, "line", line.as_slice())
        }
        None => push_lines(
            told,
            "line",
            byte_listing(kind_of(rest)?, offset).as_slice(),
        ),
    }
}

/// The group that the text names; `None` for a hyphen.
pub(crate) fn group_of(text: &str) -> Result<Option<U4>> {
    if text == "-" {
        return Ok(None);
    }
    Ok(Some(U4::low_bits(text.parse::<u32>()?)))
}

fn kind_of(name: &str) -> Result<Kind> {
    Ok(match name {
        "Utility" => Kind::Utility,
        "Stream" => Kind::Stream,
        "Reserved" => Kind::Reserved,
        "Data8" => Kind::Data8,
        "Flex" => Kind::Flex,
        "NoteAttribute" => Kind::NoteAttribute,
        "NoteController" => Kind::NoteController,
        "NoteBend" => Kind::NoteBend,
        "NoteManagement" => Kind::NoteManagement,
        "NullParameter" => Kind::NullParameter,
        "RelativeParameter" => Kind::RelativeParameter,
        "MisplacedController" => Kind::MisplacedController,
        "FineController" => Kind::FineController,
        "StrayExclusive" => Kind::StrayExclusive,
        "CutExclusive" => Kind::CutExclusive,
        "OpenExclusive" => Kind::OpenExclusive,
        "Stray" => Kind::Stray,
        "Undefined" => Kind::Undefined,
        "CutMessage" => Kind::CutMessage,
        "OpenMessage" => Kind::OpenMessage,
        "IgnoredDataEntry" => Kind::IgnoredDataEntry,
        _ => bail!("there is no such kind"),
    })
}
