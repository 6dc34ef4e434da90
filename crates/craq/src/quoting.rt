//! Words as a shell takes them; for `people`.
use craq_cli::{has_raw_bytes, raw_bytes};
use std::alloc::{AllocError, Global};

/// Returns true for a character that a shell takes as it is.
fn is_plain(c: char) -> bool {
    c.is_ascii_alphanumeric()
        || matches!(c, '@' | '%' | '+' | '=' | ':' | ',' | '.' | '/' | '-' | '_')
}

/// Appends a word in single quotes.
fn push_quoted(line: &mut String, word: &str) -> Result<(), AllocError> {
    line.push_str("'")?;
    for c in word.chars() {
        if c == '\'' {
            line.push_str("'\"'\"'")?;
        } else {
            line.push(c)?;
        }
    }
    line.push_str("'")
}

/// Appends a word by the hexadecimal digits of its bytes, as bash takes it.
fn push_raw(line: &mut String, alloc: Global, word: &str) -> Result<(), AllocError> {
    line.push_str("$'")?;
    let bytes = raw_bytes(alloc, word)?;
    for byte in &bytes {
        let byte = *byte;
        write!(line, "\\x{byte:02x}")?;
    }
    line.push_str("'")
}

/// Appends a blank and a word, quoted if a shell would take it otherwise. Fails only when out of
/// memory; the line then has a part of the word.
pub fn push_word(line: &mut String, alloc: Global, word: &str) -> Result<(), AllocError> {
    line.push_str(" ")?;
    if has_raw_bytes(word) {
        return push_raw(line, alloc, word);
    }
    if !word.is_empty() && word.chars().all(is_plain) {
        return line.push_str(word);
    }
    push_quoted(line, word)
}

/// The most bytes of an input that a message shows.
const MOST_SHOWN: usize = 64;

/// Appends the first bytes of an input, of which a message says that they are wrong: printable
/// ASCII as it is, a line feed as `\\n`, and any other byte by its hexadecimal digits.
pub fn push_shown(text: &mut String, bytes: &[u8]) -> Result<(), AllocError> {
    for byte in bytes.iter().take(MOST_SHOWN) {
        let byte = *byte;
        if byte == b'\n' {
            text.push_str("\\n")?;
        } else if b' ' <= byte && byte <= b'~' {
            text.push(char::from(byte))?;
        } else {
            write!(text, "\\x{byte:02x}")?;
        }
    }
    if bytes.len() > MOST_SHOWN {
        text.push_str("..")?;
    }
    Ok(())
}
