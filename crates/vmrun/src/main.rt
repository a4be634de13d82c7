//! The program: it hands the words, the current folder, its two swap files and standard output to the
//! call `vmrun`, and ends with the status. To standard error it writes the line of a fault, what `explain`
//! tells beside, and what the system refused.
#![tactic(auto)]

ghost use Rattle.std.specs.Prelude.{◌≡◌};

mod telling;

use std::fs::File;
use std::io::{ErrorKind, IsTerminal, Write};
use std::os::unix::io::AsRawFd;
use std::process::ExitCode;
use std::{env, fs, io};
use system_calls::Host;
use system_edge::{DirFiles, FileSwap, Moved, OutSink, Refusal, Sink, SwapDev};
use telling::{Refuser, exit_code, first_of, has_line, refuser_of};
use vm_run::{explain, vmrun};

// The statuses of bad words, of a file that could not be read, of an output that could not be written, and of want
// of memory.
const BAD_WORDS: u8 = 1;

const FILE_FAULT: u8 = 5;

const OUTPUT_FAILED: u8 = 8;

const NO_MEMORY: u8 = 9;

// The standard descriptors are 0 to 2.
const LAST_STANDARD: i32 = 2;

// Occupies each standard descriptor that is closed, as long as what is returned lives. Else the first file that
// is opened would get it, and the output would go to a swap file. The root folder gives no byte, and takes none.
fn occupy_descriptors(rt: &HostRuntime) -> io::Result<Vec<File>> {
    let mut occupied = Vec::new(rt.alloc());
    for _ in 0..3 {
        let file = fs::open(rt, "/")?;
        if file.as_raw_fd() > LAST_STANDARD {
            break;
        }
        occupied.push(file)?;
    }
    Ok(occupied)
}

// The words of the command line after the program's name, or the status where they can't be had.
fn read_words(rt: &HostRuntime) -> Result<Vec<String>, u8> {
    let given = match env::args(rt) {
        Ok(given) => given,
        Err(error) if error.kind() == ErrorKind::OutOfMemory => return Err(NO_MEMORY),
        Err(_) => return Err(BAD_WORDS),
    };
    let mut words = Vec::new(rt.alloc());
    for word in given.skip(1) {
        if words.push(word).is_err() {
            return Err(NO_MEMORY);
        }
    }
    Ok(words)
}

// A swap device of 65,536 blocks: two are enough for every SWAP.
fn swap_file<'r>(
    host: &'r Host<'r, HostRuntime>,
    name: &'r str,
) -> FileSwap<'r, Host<'r, HostRuntime>>
    ensures { ⟦<FileSwap<'r, Host<'r, HostRuntime>> as SwapDev>⟧.blocks result ≡ 65_536 }
{
    FileSwap::new(host, name, 65_536)
}

// Writes what the system refused, and why, to standard error.
fn tell_refusal(rt: &HostRuntime, refusal: Option<Refusal<'_>>) {
    if let Some(refusal) = refusal {
        let _ = eprintln!(rt; "vmrun: {refusal}");
    }
}

// Writes why the output failed, unless who reads it has gone.
fn tell_output(rt: &HostRuntime, error: Option<io::Error>) {
    match error {
        Some(error) if error.kind() != ErrorKind::BrokenPipe => {
            let _ = eprintln!(rt; "vmrun: the output could not be written: {error}");
        }
        _ => {}
    }
}

// Writes the line of a fault, which ends the output, to standard error too, where a terminal doesn't show it.
fn tell_line(rt: &HostRuntime, sink: &OutSink<'_, Host<'_, HostRuntime>>, status: u8) {
    if has_line(status) && !rt.stdout().is_terminal() {
        let _ = rt.stderr().write_all(sink.last_line());
    }
}

// Ends before a run begins: writes this line, and answers its status, or 8.
fn end_early(
    rt: &HostRuntime,
    sink: &mut OutSink<'_, Host<'_, HostRuntime>>,
    line: &[u8],
    status: u8,
) -> u8 {
    match sink.put(line) {
        Moved::Done => {
            tell_line(rt, sink, status);
            status
        }
        Moved::Failed => {
            tell_output(rt, sink.last_error());
            OUTPUT_FAILED
        }
    }
}

// Runs these words, tells what is to be told of how that ended, and answers the status.
fn run_words(
    rt: &HostRuntime,
    words: &[&str],
    sink: &mut OutSink<'_, Host<'_, HostRuntime>>,
) -> u8 {
    let alloc = rt.alloc();
    let host = Host(rt);
    let mut zero = swap_file(&host, "vmrun.swap0");
    let mut one = swap_file(&host, "vmrun.swap1");
    let mut files = DirFiles::new(alloc, &host, words);
    let status = vmrun(alloc, words, &mut files, &mut zero, &mut one, sink);
    tell_line(rt, sink, status);
    if let Ok(Some(text)) = explain(alloc, words, &mut files, status) {
        let _ = rt.stderr().write_all(text.as_slice());
    }
    match refuser_of(status) {
        Refuser::Files => tell_refusal(rt, files.last_refusal()),
        Refuser::Devices => tell_refusal(rt, first_of(zero.last_refusal(), one.last_refusal())),
        Refuser::Output => tell_output(rt, sink.last_error()),
        Refuser::Nobody => {}
    }
    status
}

// Takes the words of the command line, and runs them.
fn answer(rt: &HostRuntime, sink: &mut OutSink<'_, Host<'_, HostRuntime>>) -> u8 {
    let words = match read_words(rt) {
        Ok(words) => words,
        Err(BAD_WORDS) => return end_early(rt, sink, b"vmrun: bad words\n", BAD_WORDS),
        Err(_) => return end_early(rt, sink, b"vmrun: no memory\n", NO_MEMORY),
    };
    let mut list = Vec::new(rt.alloc());
    for word in words.as_slice() {
        if list.push(word.as_str()).is_err() {
            return end_early(rt, sink, b"vmrun: no memory\n", NO_MEMORY);
        }
    }
    run_words(rt, list.as_slice(), sink)
}

fn main(rt: HostRuntime) -> ExitCode {
    let mut output = Host(&rt);
    let mut sink = OutSink::new(&mut output);
    match occupy_descriptors(&rt) {
        Ok(_occupied) => exit_code(answer(&rt, &mut sink)),
        Err(error) => {
            let status = end_early(&rt, &mut sink, b"vmrun: file fault\n", FILE_FAULT);
            tell_refusal(&rt, Some(Refusal { name: "/", error }));
            exit_code(status)
        }
    }
}
