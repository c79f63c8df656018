// The words of rows.
use abi_base::NoMemory;
use std::alloc::Global;

/// The text before the first bar, and the text after it.
pub(crate) fn cells_of(row: &str) -> (&str, &str) {
    row.split_once('|').unwrap_or((row, ""))
}

/// The number, or 0 if the text is not one.
pub(crate) fn number(text: &str) -> usize {
    text.parse().unwrap_or(0)
}

/// The bytes, each written as two hexadecimal digits.
pub(crate) fn bytes_of(alloc: Global, text: &str) -> Result<Vec<u8>, NoMemory> {
    let mut bytes = Vec::new(alloc);
    for word in text.split_whitespace() {
        bytes.push(u8::from_str_radix(word, 16).unwrap_or(0))?;
    }
    Ok(bytes)
}
