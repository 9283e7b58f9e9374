// Decodes words to packets.
ghost use Rattle.std.specs.Prelude.{◌≡◌, ◌<◌, length, false, IfOk, MatchOption};
ghost use Rattle.packet_words.specs.Words.{IsWhole};
ghost use Rattle.ump_grammar.specs.WordFields.{type_of};
ghost use Rattle.ump_grammar.specs.Ranges.{IsPacket};
ghost use Rattle.ump_grammar.specs.Reading.{Decodes};
ghost use Rattle.ump_grammar.specs.Reason.{has_high as is_any_high};
ghost use Rattle.ump_grammar.specs.Spelling.{
  has_row,
  exclusive_places,
  form_number,
  is_system_status as is_status,
};

use crate::fields::{bits, byte, half, nibble};
use crate::packet::{Bad, Packet};
use crate::voice1_rows::{system_message, voice1_message};
use crate::voice2_rows::voice2_message;
use packet_words::{Framed, Words};
use small_types::ShortList;
use voice_messages::Form;

/// Returns the packet that the words encode (M2-104-UM). The message type in the first word determines how
/// many words there are.
///
/// * `Err(BadCount)` is returned exactly if a 7-bit exclusive of form 0 to 3 counts more than six bytes.
/// * `Err(HighBit)` is returned exactly if another packet has 128 or more in a byte that carries seven
///   bits. In an exclusive, these are the bytes that it counts. The bytes of a program's bank are among
///   them only if the packet has a bank.
#[tactic(auto, using(crate::proofs::Fitting::decoded_fits))]
#[inline(always)]
pub fn decode(framed: &Framed) -> Result<Packet, Bad>
    requires { IsWhole framed.now.words }
    ensures answer { Decodes framed.now.words result }
    ensures fits { IfOk result IsPacket }
{
    let words = &framed.words;
    match bits(words.as_slice()[0], 28, 4) {
        0x0 => utility(words),
        0x1 => system(words),
        0x2 => voice1(words),
        0x3 => exclusive(words),
        0x4 => voice2(words),
        0x5 => data8(words),
        0xD => flex(words),
        0xF => stream(words),
        _ => reserved(words),
    }
}

fn utility(words: &Words) -> Result<Packet, Bad>
    requires whole { IsWhole words.now }
    requires kind { type_of words.now ≡ 0x0 }
    ensures { Decodes words.now result }
{
    let word = words.as_slice()[0];
    let status = bits(word, 20, 4) as u8;
    if status > 4 {
        return reserved(words);
    }
    Ok(Packet::Utility {
        status,
        value: bits(word, 0, 20),
    })
}

// Returns whether a byte is the status of a system common or system real time message.
fn is_system_status(status: u8) -> bool
    ensures { result ≡ is_status status }
{
    matches!(
        status,
        0xF1 | 0xF2 | 0xF3 | 0xF6 | 0xF8 | 0xFA | 0xFB | 0xFC | 0xFE | 0xFF
    )
}

#[inline(always)]
fn system(words: &Words) -> Result<Packet, Bad>
    requires whole { IsWhole words.now }
    requires kind { type_of words.now ≡ 0x1 }
    ensures { Decodes words.now result }
{
    let word = words.as_slice()[0];
    if !is_system_status(byte(word, 16)) {
        return reserved(words);
    }
    match system_message(words.as_slice()) {
        Some(message) => Ok(Packet::System {
            group: nibble(word, 24),
            message,
        }),
        None => Err(Bad::HighBit),
    }
}

#[inline(always)]
fn voice1(words: &Words) -> Result<Packet, Bad>
    requires whole { IsWhole words.now }
    requires kind { type_of words.now ≡ 0x2 }
    ensures { Decodes words.now result }
{
    let word = words.as_slice()[0];
    if !matches!(bits(word, 20, 4), 0x8..=0xE) {
        return reserved(words);
    }
    match voice1_message(words.as_slice()) {
        Some(message) => Ok(Packet::Voice1 {
            group: nibble(word, 24),
            message,
        }),
        None => Err(Bad::HighBit),
    }
}

#[inline(always)]
fn voice2(words: &Words) -> Result<Packet, Bad>
    requires whole { IsWhole words.now }
    requires kind { type_of words.now ≡ 0x4 }
    ensures { Decodes words.now result }
{
    let word = words.as_slice()[0];
    if bits(word, 20, 4) == 0x7 {
        return reserved(words);
    }
    match voice2_message(words.as_slice()) {
        Some(message) => Ok(Packet::Voice2 {
            group: nibble(word, 24),
            message,
        }),
        None => Err(Bad::HighBit),
    }
}

fn data8(words: &Words) -> Result<Packet, Bad>
    requires whole { IsWhole words.now }
    requires kind { type_of words.now ≡ 0x5 }
    ensures { Decodes words.now result }
{
    Ok(Packet::Data8 {
        group: nibble(words.as_slice()[0], 24),
        words: words.copied(),
    })
}

fn flex(words: &Words) -> Result<Packet, Bad>
    requires whole { IsWhole words.now }
    requires kind { type_of words.now ≡ 0xD }
    ensures { Decodes words.now result }
{
    Ok(Packet::Flex {
        group: nibble(words.as_slice()[0], 24),
        words: words.copied(),
    })
}

fn stream(words: &Words) -> Result<Packet, Bad>
    requires whole { IsWhole words.now }
    requires kind { type_of words.now ≡ 0xF }
    ensures { Decodes words.now result }
{
    let words = words.as_slice();
    Ok(Packet::Stream {
        format: bits(words[0], 26, 2) as u8,
        status: bits(words[0], 16, 10) as u16,
        low: half(words[0], 0),
        second: words[1],
        third: words[2],
        fourth: words[3],
    })
}

// Decodes words of a reserved type, status, opcode or form.
fn reserved(words: &Words) -> Result<Packet, Bad>
    requires whole { IsWhole words.now }
    requires none { has_row words.now ≡ false }
    ensures { Decodes words.now result }
{
    Ok(Packet::Reserved {
        words: words.copied(),
    })
}

#[inline(always)]
fn exclusive(words: &Words) -> Result<Packet, Bad>
    requires whole { IsWhole words.now }
    requires kind { type_of words.now ≡ 0x3 }
    ensures { Decodes words.now result }
{
    let word = words.as_slice()[0];
    let Some(form) = form_of(bits(word, 20, 4)) else {
        return reserved(words);
    };
    let count = bits(word, 16, 4) as usize;
    if count > 6 {
        return Err(Bad::BadCount);
    }
    let places = exclusive_bytes(words.as_slice());
    let counted = &places[..count];
    if has_high(counted) {
        return Err(Bad::HighBit);
    }
    let mut bytes = ShortList::new();
    bytes.extend(counted);
    Ok(Packet::Exclusive {
        group: nibble(word, 24),
        form,
        bytes,
    })
}

/// Returns the form of this number (M2-104-UM, formats of stream messages and of 7-bit exclusives): 0
/// complete, 1 start, 2 continue, 3 end; `None` exactly if the number is above 3.
pub fn form_of(number: u32) -> Option<Form>
    ensures { MatchOption result (3 < number) (λ form. number ≡ form_number form) }
{
    match number {
        0 => Some(Form::Complete),
        1 => Some(Form::Start),
        2 => Some(Form::Continue),
        3 => Some(Form::End),
        _ => None,
    }
}

/// Returns bytes 3 to 8 of the packet, the places for the bytes of a 7-bit exclusive (M2-104-UM, system
/// exclusive 7-bit messages).
#[inline(always)]
pub fn exclusive_bytes(words: &[u32]) -> [u8; 6]
    requires { length words.now ≡ 2 }
    ensures { result ≡ exclusive_places words.now }
{
    let [_, _, byte3, byte4] = words[0].to_be_bytes();
    let [byte5, byte6, byte7, byte8] = words[1].to_be_bytes();
    [byte3, byte4, byte5, byte6, byte7, byte8]
}

// Returns whether any byte is 128 or more.
fn has_high(bytes: &[u8]) -> bool
    ensures { result ≡ is_any_high bytes.now }
{
    bytes.iter().any(|byte| *byte >= 128)
}
