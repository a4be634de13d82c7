//! A recorded case, read line by line: its files, and the runs that are made over them.
use crate::bad::Bad;
use crate::pieces::{push_each, push_filling, push_longs, push_repeated, put_words};
use crate::running::{Asked, difference};
use std::alloc::Global;

/// A case as far as its lines were read.
#[derive(Drop)]
pub struct Case {
    alloc: Global,

    // The files, of which the last of a name is meant; so many of them are there for all cases.
    files: Vec<(String, Vec<u8>)>,
    common: Option<usize>,
    asked: Asked,
}

// The bytes of the last file of a name.
fn file_named<'a>(files: &'a [(String, Vec<u8>)], name: &str) -> Result<&'a [u8], Bad> {
    match files.iter().rev().find(|file| file.0.as_str() == name) {
        Some(file) => Ok(file.1.as_slice()),
        None => Err(Bad::File),
    }
}

// The bytes of a named file from an offset on, so many of them: the name, the offset and the count.
fn part_of(alloc: Global, files: &[(String, Vec<u8>)], words: &str) -> Result<Vec<u8>, Bad> {
    let (name, words) = words.split_once(' ').ok_or(Bad::Line)?;
    let (offset, count) = words.split_once(' ').ok_or(Bad::Line)?;
    let bytes = file_named(files, name)?;
    let (offset, count) = (offset.parse::<usize>()?, count.parse::<usize>()?);
    let part = bytes
        .get(offset..offset.saturating_add(count))
        .ok_or(Bad::Number)?;
    Ok(Vec::from_slice(alloc, part)?)
}

impl Case {
    pub fn new(alloc: Global) -> Case {
        Case {
            alloc,
            files: Vec::new(alloc),
            common: None,
            asked: Asked::new(alloc),
        }
    }

    // A case begins: the files of the one before are gone, and devices, faults and words are as at the start.
    fn begin(&mut self) {
        let common = self.common.unwrap_or(self.files.len());
        self.common = Some(common);
        self.files.truncate(common);
        self.asked = Asked::new(self.alloc);
    }

    // Does to the last file what a line tells.
    fn take_piece(&mut self, first: &str, rest: &str) -> Result<(), Bad> {
        let part = match first {
            "copy" => part_of(self.alloc, self.files.as_slice(), rest)?,
            _ => Vec::new(self.alloc),
        };
        let file = self.files.as_mut_slice().last_mut().ok_or(Bad::File)?;
        let bytes = &mut file.1;
        match first {
            "line" => {
                bytes.extend_from_slice(rest.as_bytes())?;
                bytes.push(b'\n')?;
            }
            "part" => bytes.extend_from_slice(rest.as_bytes())?,
            "repeat" => push_repeated(bytes, rest)?,
            "fill" => push_filling(bytes, rest)?,
            "long" => push_longs(bytes, rest)?,
            "copy" => bytes.extend_from_slice(part.as_slice())?,
            "at" => put_words(bytes.as_mut_slice(), rest)?,
            _ => return Err(Bad::Line),
        }
        Ok(())
    }

    /// Takes a line. The last one of a run answers what differs in it, and nothing where it is as recorded.
    pub fn take(&mut self, line: &str) -> Result<Option<String>, Bad> {
        let (first, rest) = line.split_once(' ').unwrap_or((line, ""));
        match first {
            "" | "#" => {}
            "case" => self.begin(),
            "file" => {
                let name = rest.to_string(self.alloc)?;
                self.files.push((name, Vec::new(self.alloc)))?;
            }
            "gives" => {
                let bytes = file_named(self.files.as_slice(), rest)?;
                self.asked.wanted.extend_from_slice(bytes)?;
            }
            "each" => push_each(self.alloc, &mut self.asked.wanted, rest)?,
            "=" => {
                let status = rest.parse::<u8>()?;
                let told = difference(self.alloc, self.files.as_slice(), &self.asked, status)?;
                self.asked.clear();
                return Ok(Some(told));
            }
            _ => {
                if !self.asked.take(first, rest)? {
                    self.take_piece(first, rest)?;
                }
            }
        }
        Ok(None)
    }
}
