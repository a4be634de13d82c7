//! What keeps a run from a wrong answer: a file that is read is nobody's swap file, a file that changes is a fault,
//! and so is an output that fails. The files are made and removed in the folder that the tests run in.
ghost use Rattle.std.specs.Prelude.{None};

use crate::checks::is;
use crate::folder::{bytes_at, make, remove};
use io_edge::{Files, Found, Moved, Sink, SwapDev};
use std::alloc::Global;
use std::fs::{File, FileTimes, OpenOptions};
use std::io::{ErrorKind, Write};
use std::os::unix::fs::MetadataExt;
use std::process::Abort;
use std::time::SystemTime;
use std::{fs, io, rt};
use system_calls::{Host, SystemOutput};
use system_edge::{DirFiles, FileSwap, OutSink};

// Whether a device on this name refuses to write.
fn refuses(rt: &HostRuntime, name: &str) -> bool {
    let host = Host(rt);
    let mut swap = FileSwap::new(&host, name, 8);
    swap.write(0, &[5; 1024]) == Moved::Failed
}

// How the file of this name is found.
fn found(rt: &HostRuntime, name: &str) -> Found {
    let host = Host(rt);
    let words = [name];
    let mut files = DirFiles::new(rt.alloc(), &host, &words);
    files.find(name)
}

// How the file of this name is found, and whether a swap file is refused while it is read.
fn found_and_refused(rt: &HostRuntime, name: &str) -> (Found, bool) {
    let host = Host(rt);
    let words = [name];
    let mut files = DirFiles::new(rt.alloc(), &host, &words);
    let found = files.find(name);
    (found, refuses(rt, name))
}

// The length of the file of this name, and its rights.
fn length_and_mode<R: Abort + rt::Files>(rt: &R, name: &str) -> (u64, u32) {
    let metadata = fs::metadata(rt, name).expect(rt, "a file that is there");
    (metadata.len(), metadata.mode())
}

// How the file of this name is found while a device has it.
fn found_while_swapped(rt: &HostRuntime, name: &str) -> (Moved, Found) {
    let host = Host(rt);
    let mut swap = FileSwap::new(&host, name, 8);
    let moved = swap.write(0, &[5; 1024]);
    (moved, found(rt, name))
}

#[test]
fn a_file_that_is_read_is_nobodys_swap_file(rt: HostRuntime) {
    make(&rt, "read.swap", "hello");
    let (_, mode) = length_and_mode(&rt, "read.swap");
    let while_read = found_and_refused(&rt, "read.swap");
    let left = length_and_mode(&rt, "read.swap");
    let while_swapped = found_while_swapped(&rt, "read.swap");
    let swapped = found(&rt, "read.swap");
    is(
        &rt,
        &(while_read, left),
        &((Found::Is { id: 0, len: 5 }, true), (5, mode)),
    );
    is(
        &rt,
        &(while_swapped, swapped),
        &((Moved::Done, Found::Failed), Found::Is { id: 0, len: 1024 }),
    );
    remove(&rt, "read.swap");
}

#[test]
fn a_swap_file_is_for_its_owner_alone(rt: HostRuntime) {
    let is_refused = refuses(&rt, "private.swap");
    let (_, mode) = length_and_mode(&rt, "private.swap");
    let made = (is_refused, mode % 0o1000);
    remove(&rt, "private.swap");
    make(&rt, "private.swap", "kept");
    let is_refused = refuses(&rt, "private.swap");
    let (_, mode) = length_and_mode(&rt, "private.swap");
    let kept = (is_refused, mode % 0o1000);
    is(&rt, &[made, kept], &[(false, 0o600), (false, 0o600)]);
    remove(&rt, "private.swap");
}

fn append(rt: &HostRuntime, name: &str) -> io::Result<()> {
    let mut file = OpenOptions::new().append(true).open(rt, name)?;
    file.write_all(b"!")
}

// The time of the last change is set, and no byte is changed.
fn set_time(rt: &HostRuntime, name: &str) -> io::Result<()> {
    let file = OpenOptions::new().write(true).open(rt, name)?;
    file.set_times(FileTimes::new().set_modified(SystemTime::UNIX_EPOCH))
}

// How the reads end before the file of this name becomes longer, and afterwards.
fn reads_around_append(rt: &HostRuntime, name: &str) -> (Option<[u8; 1]>, bool, Option<[u8; 1]>) {
    let host = Host(rt);
    let words = [name];
    let mut files = DirFiles::new(rt.alloc(), &host, &words);
    let _ = files.find(name);
    let before = bytes_at(&mut files, 0, 0);
    let is_longer = append(rt, name).is_ok();
    (before, is_longer, bytes_at(&mut files, 0, 0))
}

// The same where its time is set.
fn reads_around_time(rt: &HostRuntime, name: &str) -> (Option<[u8; 1]>, bool, Option<[u8; 1]>) {
    let host = Host(rt);
    let words = [name];
    let mut files = DirFiles::new(rt.alloc(), &host, &words);
    let _ = files.find(name);
    let before = bytes_at(&mut files, 0, 0);
    let is_set = set_time(rt, name).is_ok();
    (before, is_set, bytes_at(&mut files, 0, 0))
}

#[test]
fn a_file_that_was_changed_is_not_read(rt: HostRuntime) {
    make(&rt, "changed.file", "hello");
    let longer = reads_around_append(&rt, "changed.file");
    let later = reads_around_time(&rt, "changed.file");
    is(&rt, &[longer, later], &[(Some(*b"h"), true, None); 2]);
    remove(&rt, "changed.file");
}

// Checks how files of these names are found, one after the other.
fn are_found<F: Files>(rt: &impl Abort, files: &mut F, rows: &[(&str, Found)]) {
    for (name, wanted) in rows {
        assert_eq!(rt; files.find(name), *wanted, "{name}");
    }
}

// How two names are found where there is a file of five bytes under the first and none under the second. It stays so for whoever found
// them, also once the first has six bytes and the second two.
static FOUND_FIRST: [(&str, Found); 2] = [
    ("first.file", Found::Is { id: 0, len: 5 }),
    ("later.file", Found::Absent),
];

static FOUND_ANEW: [(&str, Found); 2] = [
    ("first.file", Found::Is { id: 0, len: 6 }),
    ("later.file", Found::Is { id: 1, len: 2 }),
];

#[test]
fn a_name_stays_as_it_was_found_first(rt: HostRuntime) {
    let host = Host(&rt);
    let words = ["first.file", "later.file"];
    make(&rt, "first.file", "hello");
    let mut files = DirFiles::new(rt.alloc(), &host, &words);
    are_found(&rt, &mut files, &FOUND_FIRST);
    append(&rt, "first.file").expect(&rt, "a file that is longer");
    make(&rt, "later.file", "hi");
    are_found(&rt, &mut files, &FOUND_FIRST);
    let mut anew = DirFiles::new(rt.alloc(), &host, &words);
    are_found(&rt, &mut anew, &FOUND_ANEW);
    remove(&rt, "first.file");
    remove(&rt, "later.file");
}

// The words are `=named.file`, which names the file behind the equals sign too, and `plain.file`. All three files are there.
static FOUND_BY_WORDS: [(&str, Found); 4] = [
    ("named.file", Found::Is { id: 2, len: 5 }),
    ("=named.file", Found::Absent),
    ("plain.file", Found::Is { id: 1, len: 2 }),
    ("other.file", Found::Failed),
];

#[test]
fn a_file_that_no_word_names_is_not_found(rt: HostRuntime) {
    let host = Host(&rt);
    let words = ["=named.file", "plain.file"];
    make(&rt, "named.file", "hello");
    make(&rt, "plain.file", "hi");
    make(&rt, "other.file", "other");
    let mut files = DirFiles::new(rt.alloc(), &host, &words);
    are_found(&rt, &mut files, &FOUND_BY_WORDS);
    remove(&rt, "named.file");
    remove(&rt, "plain.file");
    remove(&rt, "other.file");
}

// Checks a file that never ends. More is asked for than a pipe holds at a time, and than any reader takes.
fn is_read_up_to_its_limit<R: Abort + rt::Files<File = File>>(rt: &R, alloc: Global) {
    let host = Host(rt);
    let words = ["/dev/zero"];
    let mut files = DirFiles::new(alloc, &host, &words);
    let zeros = files.find("/dev/zero");
    let mut last = [9];
    let answers = [
        files.read_at(0, 67_108_864, &mut last),
        files.read_at(0, 67_108_865, &mut last),
    ];
    let found = Found::Is {
        id: 0,
        len: 67_108_865,
    };
    is(
        rt,
        &(zeros, answers, last),
        &(found, [Moved::Done, Moved::Failed], [0]),
    );
}

#[test]
fn of_what_never_ends_one_byte_too_many_is_kept(rt: HostRuntime) {
    is_read_up_to_its_limit(&rt, rt.alloc());
}

// An output that answers this error so many times, and then takes all. It doesn't tell what it took.
#[derive(Drop)]
struct RefusingOutput {
    error: ErrorKind,
    times: u32,
}

impl SystemOutput for RefusingOutput {
    ghost taken = { λ _. None };

    fn write_some(&mut self, bytes: &[u8]) -> io::Result<usize> {
        match self.times {
            0 => Ok(bytes.len()),
            times => {
                self.times = times.saturating_sub(1);
                Err(io::Error::from(self.error))
            }
        }
    }
}

// How a piece is put to an output that answers this error once.
fn put_after(error: ErrorKind) -> (Moved, bool) {
    let mut output = RefusingOutput { error, times: 1 };
    let mut sink = OutSink::new(&mut output);
    let moved = sink.put(b"piece");
    let is_told = sink.last_error().is_some_and(|told| told.kind() == error);
    (moved, is_told)
}

#[test]
fn an_output_that_answers_an_error_has_failed(rt: HostRuntime) {
    let answers = [
        put_after(ErrorKind::StorageFull),
        put_after(ErrorKind::BrokenPipe),
        put_after(ErrorKind::Interrupted),
    ];
    let wanted = [
        (Moved::Failed, true),
        (Moved::Failed, true),
        (Moved::Done, false),
    ];
    is(&rt, &answers, &wanted);
}

// Whether this is the last line of an output of these pieces.
fn is_last_line(pieces: &[&str], line: &str) -> bool {
    let mut output = RefusingOutput {
        error: ErrorKind::Other,
        times: 0,
    };
    let mut sink = OutSink::new(&mut output);
    for piece in pieces {
        let _ = sink.put(piece.as_bytes());
    }
    sink.last_line() == line.as_bytes()
}

// How many bytes are kept of a line of so many pieces of eight bytes each.
fn kept_of(pieces: usize) -> usize {
    let mut output = RefusingOutput {
        error: ErrorKind::Other,
        times: 0,
    };
    let mut sink = OutSink::new(&mut output);
    for _ in 0..pieces {
        let _ = sink.put(b"8 bytes ");
    }
    sink.last_line().len()
}

#[test]
fn the_last_line_of_an_output_is_kept(rt: HostRuntime) {
    let answers = [
        is_last_line(&[], ""),
        is_last_line(&["t 1\nvmrun: file fault\n"], "vmrun: file fault\n"),
        is_last_line(&["t 1\nvmrun: fi", "le fault\n"], "vmrun: file fault\n"),
        is_last_line(&["t 1\n", "vmrun: no memory\n"], "vmrun: no memory\n"),
        is_last_line(&["t 1\n", "x"], "x"),
    ];
    is(&rt, &answers, &[true; 5]);
    is(
        &rt,
        &[kept_of(15), kept_of(16), kept_of(17)],
        &[120, 128, 128],
    );
}
