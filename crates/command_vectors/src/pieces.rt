//! The short forms in which cases write files: longwords, repeated lines, filled bytes.
use crate::bad::Bad;
use std::alloc::{AllocError, Global};

/// Appends longwords, each in hexadecimal, the lowest byte first.
pub fn push_longs(bytes: &mut Vec<u8>, words: &str) -> Result<(), Bad> {
    for word in words.split(' ') {
        bytes.extend_from_slice(&u32::from_str_radix(word, 16)?.to_le_bytes())?;
    }
    Ok(())
}

// Puts a byte of two digits or a longword of eight at a place, and answers the place after it.
fn put_word(bytes: &mut [u8], place: usize, word: &str) -> Result<usize, Bad> {
    let long = u32::from_str_radix(word, 16)?.to_le_bytes();
    let mut next = place;
    for &byte in long.iter().take(word.len() / 2) {
        let Some(there) = bytes.get_mut(next) else {
            return Err(Bad::Number);
        };
        *there = byte;
        next = next.saturating_add(1);
    }
    Ok(next)
}

/// Puts bytes and longwords at an address of the first page of text, which begins at 1,024 in the file. A remark may follow.
pub fn put_words(bytes: &mut [u8], line: &str) -> Result<(), Bad> {
    let told = line.split(';').next().unwrap_or("");
    let mut words = told.split_whitespace();
    let address = words.next().unwrap_or("");
    let mut place = usize::from_str_radix(address, 16)?.saturating_add(1_024);
    for word in words {
        place = put_word(bytes, place, word)?;
    }
    Ok(())
}

/// Appends a line so many times: a count and the line.
pub fn push_repeated(bytes: &mut Vec<u8>, words: &str) -> Result<(), Bad> {
    let (count, line) = words.split_once(' ').ok_or(Bad::Line)?;
    for _ in 0..count.parse::<u32>()? {
        bytes.extend_from_slice(line.as_bytes())?;
        bytes.push(b'\n')?;
    }
    Ok(())
}

/// Appends a byte so many times: a count in decimal, and the byte in hexadecimal.
pub fn push_filling(bytes: &mut Vec<u8>, words: &str) -> Result<(), Bad> {
    let (count, byte) = words.split_once(' ').ok_or(Bad::Line)?;
    let byte = u8::from_str_radix(byte, 16)?;
    for _ in 0..count.parse::<u32>()? {
        bytes.push(byte)?;
    }
    Ok(())
}

// Appends a line, in which a number stands for each `%`.
fn push_numbered(
    alloc: Global,
    bytes: &mut Vec<u8>,
    line: &str,
    number: u32,
) -> Result<(), AllocError> {
    let number = format!(in alloc; "{number}")?;
    for (index, piece) in line.split('%').enumerate() {
        if index > 0 {
            bytes.extend_from_slice(number.as_bytes())?;
        }
        bytes.extend_from_slice(piece.as_bytes())?;
    }
    bytes.push(b'\n')?;
    Ok(())
}

/// Appends lines for each number from a first to a last one: the two numbers, and the lines with a comma between them.
pub fn push_each(alloc: Global, bytes: &mut Vec<u8>, words: &str) -> Result<(), Bad> {
    let (first, words) = words.split_once(' ').ok_or(Bad::Line)?;
    let (last, lines) = words.split_once(' ').ok_or(Bad::Line)?;
    let last = last.parse::<u32>()?.saturating_add(1);
    for number in first.parse::<u32>()?..last {
        for line in lines.split(", ") {
            push_numbered(alloc, bytes, line, number)?;
        }
    }
    Ok(())
}
