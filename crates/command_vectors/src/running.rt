//! Makes one run of a case and compares it with what was recorded: text, status, the line beside, and the devices.
ghost use Rattle.std.specs.Prelude.{◌<◌, ◌^◌, vec_len, IfOk};

use crate::bad::Bad;
use crate::devices::{Lie, LyingSwap};
use io_edge::{MemFiles, MemSink, MemSwap, NoMemory, SwapDev};
use std::alloc::{AllocError, Global};
use vm_run::{InMemory, explain, vmrun, vmrun_in_memory};

/// The room of the output.
const ROOM: usize = 131_072;

/// What is asked of a run, and what is wanted.
#[derive(Drop)]
pub struct Asked {
    words: String,
    // The blocks of both devices.
    zero: u32,
    one: u32,
    lie: Lie,

    // The numbers of the calls that fail: of the files, of device 0 and of the output.
    fail_files: Vec<u64>,
    fail_reads: Vec<u64>,
    fail_writes: Vec<u64>,
    fail_output: Vec<u64>,

    // What is to be written, and to be told beside.
    pub wanted: Vec<u8>,
    told: Vec<u8>,
}

fn push_line(bytes: &mut Vec<u8>, line: &str) -> Result<(), AllocError> {
    bytes.extend_from_slice(line.as_bytes())?;
    bytes.push(b'\n')?;
    Ok(())
}

impl Asked {
    pub fn new(alloc: Global) -> Asked {
        Asked {
            words: String::new(alloc),
            zero: 1_024,
            one: 6,
            lie: Lie::Nothing,
            fail_files: Vec::new(alloc),
            fail_reads: Vec::new(alloc),
            fail_writes: Vec::new(alloc),
            fail_output: Vec::new(alloc),
            wanted: Vec::new(alloc),
            told: Vec::new(alloc),
        }
    }

    /// The next run of the case has words and texts of its own.
    pub fn clear(&mut self) {
        self.words.clear();
        self.wanted.clear();
        self.told.clear();
    }

    // No call fails, and no device lies.
    fn is_sound(&self) -> bool {
        let fails = [
            &self.fail_files,
            &self.fail_reads,
            &self.fail_writes,
            &self.fail_output,
        ];
        matches!(self.lie, Lie::Nothing) && fails.iter().all(|it| it.is_empty())
    }

    // A call of this kind fails.
    fn fail(&mut self, words: &str) -> Result<(), Bad> {
        let (kind, number) = words.split_once(' ').ok_or(Bad::Line)?;
        let number = number.parse::<u64>()?;
        match kind {
            "file" => self.fail_files.push(number)?,
            "read" => self.fail_reads.push(number)?,
            "write" => self.fail_writes.push(number)?,
            "output" => self.fail_output.push(number)?,
            _ => return Err(Bad::Line),
        }
        Ok(())
    }

    /// Takes a line that tells of the devices, the faults, the words or the texts; answers whether it was one.
    pub fn take(&mut self, first: &str, rest: &str) -> Result<bool, Bad> {
        match first {
            "blocks" => {
                let (zero, one) = rest.split_once(' ').ok_or(Bad::Line)?;
                self.zero = zero.parse::<u32>()?;
                self.one = one.parse::<u32>()?;
            }
            "lie" if rest == "first" => self.lie = Lie::FirstByte,
            "lie" if rest == "each" => self.lie = Lie::EachFirstByte,
            "lie" => self.lie = Lie::Byte20(rest.parse::<u32>()?),
            "fail" => self.fail(rest)?,
            "vmrun" => self.words.push_str(rest)?,
            "|" => push_line(&mut self.wanted, rest)?,
            "told" => push_line(&mut self.told, rest)?,
            _ => return Ok(false),
        }
        Ok(true)
    }
}

// Copies of the files, the last one first, since the first of a name is found.
fn copies_of(alloc: Global, files: &[(String, Vec<u8>)]) -> Result<Vec<(String, Vec<u8>)>, Bad>
    ensures { IfOk result (λ copies. vec_len copies < 2 ^ 32) }
{
    let mut held = Vec::new(alloc);
    for (name, bytes) in files.iter().rev() {
        held.push((
            name.to_string(alloc)?,
            Vec::from_slice(alloc, bytes.as_slice())?,
        ))?;
    }
    if held.len() > 1_000 {
        return Err(Bad::File);
    }
    Ok(held)
}

// The words of a command line.
fn words_of(alloc: Global, line: &str) -> Result<Vec<&str>, AllocError> {
    let mut words = Vec::new(alloc);
    if !line.is_empty() {
        for word in line.split(' ') {
            words.push(word)?;
        }
    }
    Ok(words)
}

// Bytes as a text.
fn shown(bytes: &[u8]) -> &str {
    str::from_utf8(bytes).unwrap_or("bytes that are no text\n")
}

// What the words of a run say when they are run over these, by its status.
fn status_of<D: SwapDev>(
    alloc: Global,
    words: &[&str],
    files: &mut MemFiles,
    zero: &mut D,
    one: &mut MemSwap,
    sink: &mut MemSink,
) -> u8 {
    vmrun(alloc, words, files, zero, one, sink)
}

// What is told beside a run that ended with this status: no byte where nothing is.
fn told_of(alloc: Global, words: &[&str], files: &mut MemFiles, given: u8) -> Vec<u8> {
    match explain(alloc, words, files, given) {
        Ok(Some(told)) => told,
        Ok(None) | Err(_) => Vec::new(alloc),
    }
}

// What a run wrote, told and answered, where that isn't what is wanted.
fn unlike(
    alloc: Global,
    asked: &Asked,
    status: u8,
    written: &[u8],
    told: &[u8],
    given: u8,
) -> Result<String, Bad> {
    if given == status && written == asked.wanted.as_slice() && told == asked.told.as_slice() {
        return Ok(String::new(alloc));
    }
    let words = asked.words.as_str();
    let (text, told) = (shown(written), shown(told));
    Ok(format!(in alloc; "vmrun {words}\n{text}{told}status {given}\n")?)
}

// An output with room for a run, whose calls of these numbers fail.
fn sink_for(alloc: Global, asked: &Asked) -> Result<MemSink, Bad> {
    let fail_output = Vec::from_slice(alloc, asked.fail_output.as_slice())?;
    Ok(MemSink::new(alloc, ROOM, fail_output)?)
}

// The files, whose calls of these numbers fail.
fn files_for(alloc: Global, files: &[(String, Vec<u8>)], asked: &Asked) -> Result<MemFiles, Bad> {
    let fail_files = Vec::from_slice(alloc, asked.fail_files.as_slice())?;
    Ok(MemFiles::new(copies_of(alloc, files)?, fail_files))
}

// Runs the words over a device 0, and tells what differs.
fn over<D: SwapDev>(
    alloc: Global,
    files: &[(String, Vec<u8>)],
    asked: &Asked,
    status: u8,
    zero: &mut D,
) -> Result<String, Bad> {
    let words = words_of(alloc, asked.words.as_str())?;
    let mut held = files_for(alloc, files, asked)?;
    let mut one = MemSwap::new(alloc, asked.one, Vec::new(alloc), Vec::new(alloc))?;
    let mut sink = sink_for(alloc, asked)?;
    let words = words.as_slice();
    let given = status_of(alloc, words, &mut held, zero, &mut one, &mut sink);
    let told = told_of(alloc, words, &mut held, given);
    unlike(alloc, asked, status, sink.written(), told.as_slice(), given)
}

// What a run wrote and answered where all is in memory, where that isn't what is wanted.
fn unlike_in_memory(
    alloc: Global,
    asked: &Asked,
    status: u8,
    done: &InMemory,
) -> Result<String, Bad> {
    let (written, given) = (done.output.written(), done.status);
    if given == status && written == asked.wanted.as_slice() {
        return Ok(String::new(alloc));
    }
    let (words, text) = (asked.words.as_str(), shown(written));
    Ok(format!(in alloc; "vmrun {words}, in memory\n{text}status {given}\n")?)
}

// Runs words over these files, where all is in memory and nothing fails.
fn done_in_memory(
    alloc: Global,
    words: &[&str],
    held: Vec<(String, Vec<u8>)>,
    asked: &Asked,
) -> Result<InMemory, NoMemory>
    requires { vec_len held < 2 ^ 32 }
{
    vmrun_in_memory(alloc, words, held, asked.zero, asked.one, ROOM)
}

// Runs the words where all is in memory and nothing fails, and tells what differs.
fn in_memory(
    alloc: Global,
    files: &[(String, Vec<u8>)],
    asked: &Asked,
    status: u8,
) -> Result<String, Bad> {
    let words = words_of(alloc, asked.words.as_str())?;
    let done = done_in_memory(alloc, words.as_slice(), copies_of(alloc, files)?, asked)?;
    unlike_in_memory(alloc, asked, status, &done)
}

/// Runs the words, and tells what came of it; nothing where it is as wanted. Where no call is to fail, they are run once more
/// over files and devices that can't.
pub fn difference(
    alloc: Global,
    files: &[(String, Vec<u8>)],
    asked: &Asked,
    status: u8,
) -> Result<String, Bad> {
    let given = first_difference(alloc, files, asked, status)?;
    if given.is_empty() && asked.is_sound() {
        return in_memory(alloc, files, asked, status);
    }
    Ok(given)
}

// Runs the words over devices that fail or lie as is asked, and tells what differs.
fn first_difference(
    alloc: Global,
    files: &[(String, Vec<u8>)],
    asked: &Asked,
    status: u8,
) -> Result<String, Bad> {
    match asked.lie {
        Lie::Nothing => {
            let fail_reads = Vec::from_slice(alloc, asked.fail_reads.as_slice())?;
            let fail_writes = Vec::from_slice(alloc, asked.fail_writes.as_slice())?;
            let mut zero = MemSwap::new(alloc, asked.zero, fail_reads, fail_writes)?;
            over(alloc, files, asked, status, &mut zero)
        }
        lie => {
            let mut zero = LyingSwap::new(alloc, asked.zero, lie)?;
            over(alloc, files, asked, status, &mut zero)
        }
    }
}
