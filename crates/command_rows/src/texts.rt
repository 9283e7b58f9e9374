// Words and bytes as a row spells them.
use anyhow::Result;
use std::alloc::Global;

/// Returns the words of a command line. Two single quotes are an empty word.
pub fn words_of(alloc: Global, text: &str) -> Result<Vec<String>> {
    let mut words = Vec::new(alloc);
    for word in text.split_whitespace() {
        let word = if word == "''" { "" } else { word };
        words.push(String::from_str(alloc, word)?)?;
    }
    Ok(words)
}

/// Adds bytes, which the text spells in groups of hexadecimal digits, two digits for each byte.
pub fn push_hex(bytes: &mut Vec<u8>, text: &str) -> Result<()> {
    for group in text.split_whitespace() {
        let digits = group.as_bytes();
        let end = bytes.len();
        bytes.resize(end + digits.len() / 2, 0)?;
        hex::decode_to_slice(digits, &mut bytes[end..])?;
    }
    Ok(())
}

/// Adds each line of a text after this word. A line that doesn't end is told as cut.
pub fn push_lines(told: &mut String, key: &str, text: &[u8]) -> Result<()> {
    for line in str::from_utf8(text)?.split_inclusive('\n') {
        match line.strip_suffix('\n') {
            Some(whole) => write!(told, "\n{key} {whole}")?,
            None => write!(told, "\n{key}-cut |{line}|")?,
        }
    }
    Ok(())
}
