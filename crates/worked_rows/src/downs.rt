// Rows of the translator down alone: its style, whether it pairs controllers and its room; a line for each packet,
// with its offset and its words. A line comes of each packet, with the MIDI 1.0 bytes and what is listed or why the
// packet is refused, and one of each exclusive that is begun at the end.
use crate::packets::{packet_of, push_words};
use crate::text_after;
use anyhow::{Result, bail};
use down_translator::{Carried, Down, Style};
use std::alloc::Global;
use voice_messages::U4;

/// What the translator of a row makes of its packets.
pub(crate) fn told_of(alloc: Global, lines: &str) -> Result<String> {
    let (style, paired) = match text_after(lines, "down").unwrap_or("") {
        "plain" => (Style::Plain, false),
        "plain paired" => (Style::Plain, true),
        "compact" => (Style::Compact, false),
        "compact paired" => (Style::Compact, true),
        _ => bail!("there is no such style"),
    };
    let room = text_after(lines, "room").unwrap_or("").parse::<u32>()?;
    if room < 6 || 1_048_576 < room {
        bail!("a room is 6 to 1048576");
    }
    let Ok(mut down) = Down::new(alloc, room, style, paired) else {
        bail!("there is no memory");
    };
    let mut told = String::new(alloc);
    tell(&mut told, alloc, &mut down, lines)?;
    Ok(told)
}

fn tell(told: &mut String, alloc: Global, down: &mut Down, lines: &str) -> Result<()> {
    told.push_str("Done")?;
    for line in lines.split('\n') {
        let (kind, packet) = line.split_once(' ').unwrap_or((line, ""));
        if kind == "takes" {
            tell_packet(told, alloc, down, packet)?;
        }
    }
    for group in 0..16 {
        if let Some(offset) = down.begun_at(U4::low_bits(group)) {
            write!(told, "\nbegun {group} {offset}")?;
        }
    }
    Ok(())
}

fn tell_packet(told: &mut String, alloc: Global, down: &mut Down, text: &str) -> Result<()> {
    let (offset, words) = text.split_once(' ').unwrap_or((text, ""));
    let offset = offset.parse::<u64>()?;
    let mut numbers = Vec::new(alloc);
    push_words(&mut numbers, words)?;
    let Some(packet) = packet_of(numbers.as_slice()) else {
        bail!("the words are not one packet");
    };
    write!(told, "\n{offset} ")?;
    match down.packet(&packet, offset) {
        Ok(carried) => push_carried(told, &carried),
        Err(bad) => {
            write!(told, "{bad:?}")?;
            Ok(())
        }
    }
}

fn push_carried(told: &mut String, carried: &Carried<'_>) -> Result<()> {
    write!(told, "lane {}", carried.lane().get())?;
    for byte in carried.piece {
        write!(told, " {byte:02X}")?;
    }
    if let Some(line) = carried.listed() {
        write!(told, " | {}", line.offset)?;
        match line.group {
            Some(group) => write!(told, " {} {:?}", group.get(), line.kind)?,
            None => write!(told, " - {:?}", line.kind)?,
        }
    }
    Ok(())
}
