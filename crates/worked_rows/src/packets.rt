// Rows of packets: the words and, if the packet isn't at 0, its offset; what the words are read as, the words
// that are written for it, and its line of `show`.
ghost use Rattle.std.specs.Prelude.{◌≤◌, length, IfOk, IfSome};
ghost use Rattle.ump_grammar.specs.Ranges.{IsPacket};

use crate::text_after;
use anyhow::bail;
use command_rows::push_lines;
use midi_lines::packet_line;
use packet_words::words::words_in_packet;
use packet_words::{Framed, Words};
use std::alloc::Global;
use system_stream::StreamMessage;
use ump_grammar::{Bad, Packet, decode, encode};

/// What the words of a row are, as the row says it after `leaves`.
pub(crate) fn told_of(alloc: Global, lines: &str) -> anyhow::Result<String> {
    let mut words = Vec::new(alloc);
    push_words(&mut words, text_after(lines, "packet").unwrap_or(""))?;
    let offset = text_after(lines, "at").unwrap_or("0").parse::<u64>()?;
    let mut told = String::new(alloc);
    tell(&mut told, words.as_slice(), offset)?;
    Ok(told)
}

/// Adds the words that the text spells in hexadecimal digits.
pub(crate) fn push_words(words: &mut Vec<u32>, text: &str) -> anyhow::Result<()> {
    for word in text.split_whitespace() {
        words.push(u32::from_str_radix(word, 16)?)?;
    }
    Ok(())
}

/// The packet of the words; `None` if they aren't one packet, or one that is refused.
pub(crate) fn packet_of(words: &[u32]) -> Option<Packet>
    ensures { IfSome result IsPacket }
{
    match read(words, 0) {
        Some(Ok(packet)) => Some(packet),
        _ => None,
    }
}

// What the words are read as; `None` if they aren't one packet.
fn read(words: &[u32], offset: u64) -> Option<Result<Packet, Bad>>
    ensures { IfSome result (λ read. IfOk read IsPacket) }
{
    if words.is_empty() || words.len() > 4 || words_in_packet(words[0]) != words.len() {
        return None;
    }
    Some(decode(&Framed {
        offset,
        words: Words::from_slice(words),
    }))
}

fn tell(told: &mut String, words: &[u32], offset: u64) -> anyhow::Result<()> {
    if words.len() > 4 {
        bail!("a packet has four words at most");
    }
    match read(words, offset) {
        Some(Ok(packet)) => push_packet(told, &packet, words, offset),
        Some(Err(bad)) => push_bad(told, bad),
        None => bail!("the words are not one packet"),
    }
}

fn push_bad(told: &mut String, bad: Bad) -> anyhow::Result<()> {
    write!(told, "{bad:?}")?;
    Ok(())
}

fn push_packet(told: &mut String, packet: &Packet, words: &[u32], offset: u64) -> anyhow::Result<()>
    requires packet { IsPacket packet.now }
    requires words { length words.now ≤ 4 }
{
    told.push_str("Read\nclean")?;
    for word in encode(packet).as_slice() {
        write!(told, " {word:08X}")?;
    }
    push_lines(told, "line", packet_line(packet, words, offset).as_slice())?;
    push_stream_message(told, packet)
}

// Adds what a stream packet says, if its message is one that is read.
fn push_stream_message(told: &mut String, packet: &Packet) -> anyhow::Result<()> {
    match system_stream::read(packet) {
        Ok(StreamMessage::Other) => {}
        Ok(message) => write!(told, "\nsays {message:?}")?,
        Err(bad) => write!(told, "\nsays {bad:?}")?,
    }
    Ok(())
}
