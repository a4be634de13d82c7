//! The adapters over the system: a real folder, an output that takes little at a time, and a disk that is full. No
//! clause can say what a disk gives.
ghost use Rattle.std.specs.Prelude.{None, false};

use crate::calls::{Answer, Call, answers};
use crate::checks::is;
use crate::folder::{bytes_at, length_of, make, make_folder, remove, remove_folder};
use io_edge::{Files, Found, Moved, Sink, SureSwap, SwapDev, SwapPair};
use std::alloc::{Allocator, Global};
use std::fs::{File, OpenOptions};
use std::io::ErrorKind;
use std::process::Abort;
use std::{fs, io, rt};
use system_calls::{FileFacts, Host, System, SystemFile, SystemOutput};
use system_edge::{DirFiles, FileSwap, OutSink};

// Checks what is found of a folder with the file `some.file` of five bytes and a folder.
fn absent_is_told_from_unread<R: Abort + rt::Files<File = File>>(rt: &R, alloc: Global) {
    let host = Host(rt);
    let words = [
        "none.file",
        "some.file",
        "some.file/inside",
        "some.folder/inside",
        "some.folder",
    ];
    let mut files = DirFiles::new(alloc, &host, &words);
    let none = files.find("none.file");
    let Found::Is { id, len } = files.find("some.file") else {
        panic!(rt; "not found");
    };
    let read = [bytes_at(&mut files, id, 2), bytes_at(&mut files, id, 3)];

    // A file has no files in it: whether there is one can't be told.
    let inside = [
        files.find("some.file/inside"),
        files.find("some.folder/inside"),
        files.find("some.folder"),
    ];
    assert_eq!(rt; (none, len), (Found::Absent, 5));
    assert_eq!(rt; read, [Some(*b"llo"), None]);
    assert_eq!(rt; inside, [Found::Failed, Found::Absent, Found::Failed]);
}

#[test]
fn an_absent_file_is_told_from_one_that_cannot_be_read(rt: HostRuntime) {
    make(&rt, "some.file", "hello");
    make_folder(&rt, "some.folder");
    absent_is_told_from_unread(&rt, rt.alloc());
    remove(&rt, "some.file");
    remove_folder(&rt, "some.folder");
}

// So many bytes, no two pages of which are alike.
fn unlike(rt: &impl Abort, alloc: Global, count: u32) -> Vec<u8> {
    let mut bytes = Vec::new(alloc);
    for place in 0..count {
        bytes
            .push((place % 251) as u8)
            .expect(rt, "memory for a byte");
    }
    bytes
}

// Checks the pages of the file `some.image` from these places on, and its end.
fn is_read_as<R: Abort + rt::Files<File = File>>(
    rt: &R,
    alloc: Global,
    bytes: &[u8],
    starts: &[usize],
) {
    let host = Host(rt);
    let words = ["some.image"];
    let mut files = DirFiles::new(alloc, &host, &words);
    let Found::Is { id, len } = files.find("some.image") else {
        panic!(rt; "not found");
    };
    assert_eq!(rt; len, 2080);
    for start in starts {
        let end = start.saturating_add(1024);
        let Some(page): Option<[u8; 1024]> = bytes_at(&mut files, id, *start as u64) else {
            panic!(rt; "not read at {start}");
        };
        assert_eq!(rt; bytes.get(*start..end), Some(page.as_slice()), "at {start}");
    }
    let Some(rest): Option<[u8; 4]> = bytes_at(&mut files, id, 2076) else {
        panic!(rt; "not read at the end");
    };
    assert_eq!(rt; bytes.get(2076..2080), Some(rest.as_slice()));
    let behind: Option<[u8; 4]> = bytes_at(&mut files, id, 2077);
    assert_eq!(rt; behind, None);
}

// The text of an image that isn't paged begins after its header of 32 bytes, so its pages begin at no multiple of 1,024.
#[test]
fn a_page_is_read_from_where_it_begins(rt: HostRuntime) {
    let bytes = unlike(&rt, rt.alloc(), 2080);
    fs::write(&rt, "some.image", bytes.as_slice()).expect(&rt, "a file that is made");
    is_read_as(&rt, rt.alloc(), bytes.as_slice(), &[32, 1056, 0, 1055]);
    remove(&rt, "some.image");
}

// An output that takes two bytes at a time, and no more than five. It doesn't tell what it took.
#[derive(Drop)]
struct NarrowOutput {
    taken: usize,

    // The bytes that it took, as the digits of a number.
    digits: u32,
}

impl SystemOutput for NarrowOutput {
    ghost taken = { λ _. None };

    fn write_some(&mut self, bytes: &[u8]) -> io::Result<usize> {
        let count = bytes.len().min(2).min(5usize.saturating_sub(self.taken));
        for byte in bytes.iter().take(count) {
            self.digits = self.digits.wrapping_mul(10).wrapping_add(u32::from(*byte));
        }
        self.taken = self.taken.saturating_add(count);
        Ok(count)
    }
}

#[test]
fn a_piece_is_written_in_parts_until_output_takes_nothing(rt: HostRuntime) {
    let mut output = NarrowOutput {
        taken: 0,
        digits: 0,
    };
    let first = OutSink::new(&mut output).put(&[1, 2, 3]);
    let first = (first, output.taken, output.digits);
    let second = OutSink::new(&mut output).put(&[4, 5, 6]);
    let second = (second, output.taken, output.digits);
    is(
        &rt,
        &[first, second],
        &[(Moved::Done, 3, 123), (Moved::Failed, 5, 12_345)],
    );
}

// Cuts a file short.
fn cut(rt: &HostRuntime, name: &str, len: u64) -> io::Result<()> {
    let file = OpenOptions::new().write(true).open(rt, name)?;
    file.set_len(len)
}

static WHOLE: [(Call, Answer); 10] = [
    (Call::Write(2, 5), Answer::Written),
    (Call::Read(6), Answer::Filled(0)),
    (Call::Read(2), Answer::Filled(5)),
    // The first page, the next one and the last one, the last one first.
    (Call::Write(6, 3), Answer::Written),
    (Call::Write(0, 1), Answer::Written),
    (Call::Write(2, 2), Answer::Written),
    (Call::Read(0), Answer::Filled(1)),
    (Call::Read(2), Answer::Filled(2)),
    (Call::Read(6), Answer::Filled(3)),
    (Call::Read(4), Answer::Filled(0)),
];

static CUT_SHORT: [(Call, Answer); 2] = [
    (Call::Read(2), Answer::Failed),
    (Call::Read(0), Answer::Filled(1)),
];

#[test]
fn a_swap_file_holds_each_page_apart(rt: HostRuntime) {
    let host = Host(&rt);
    let mut swap = FileSwap::new(&host, "some.swap", 8);
    let at_first = (swap.blocks(), length_of(&rt, "some.swap"));
    is(&rt, &at_first, &(8, None));
    answers(&rt, &mut swap, &WHOLE);
    cut(&rt, "some.swap", 1030).expect(&rt, "a file that is cut");
    answers(&rt, &mut swap, &CUT_SHORT);
    remove(&rt, "some.swap");
}

// A system whose disk gets full: a file takes a page and no more. It doesn't tell what files hold.
#[derive(Drop)]
struct FullDisk;

// A file that takes as many bytes as it has room for, and gives none back.
#[derive(Drop)]
struct FullFile {
    room: usize,
}

fn disk_full() -> io::Error {
    io::Error::from(ErrorKind::StorageFull)
}

impl SystemFile for FullFile {
    ghost bytes = { λ _. None };

    fn facts(&self) -> io::Result<FileFacts> {
        Err(disk_full())
    }

    fn read_range(&self, _offset: u64, _buf: &mut [u8]) -> io::Result<()> {
        Err(io::Error::from(ErrorKind::UnexpectedEof))
    }

    fn write_range(&mut self, _offset: u64, piece: &[u8]) -> io::Result<()> {
        let is_full = piece.len() > self.room;
        self.room = self.room.saturating_sub(piece.len());
        if is_full { Err(disk_full()) } else { Ok(()) }
    }

    fn empty(&mut self) -> io::Result<()> {
        Ok(())
    }

    fn read_start<A: Allocator>(&mut self, alloc: A, _most: u64) -> io::Result<Vec<u8, A>> {
        Ok(Vec::new(alloc))
    }

    fn lock_alone(&self) -> io::Result<()> {
        Ok(())
    }

    fn lock_shared(&self) -> io::Result<()> {
        Ok(())
    }

    fn keep_private(&self) -> io::Result<()> {
        Ok(())
    }
}

impl System for FullDisk {
    type File = FullFile;

    ghost folder = { λ _. None };

    ghost tells = { λ _. false };

    fn open(&self, _name: &str) -> io::Result<Option<FullFile>> {
        Ok(None)
    }

    fn open_to_write(&self, _name: &str) -> io::Result<FullFile> {
        Err(disk_full())
    }

    fn make(&self, _name: &str) -> io::Result<FullFile> {
        Ok(FullFile { room: 1024 })
    }

    fn facts_of(&self, _name: &str) -> io::Result<FileFacts> {
        Err(disk_full())
    }

    fn user(&self) -> Option<u32> {
        None
    }
}

static WITH_ROOM: [(Call, Answer); 2] = [
    (Call::Write(0, 1), Answer::Written),
    (Call::Write(1024, 1), Answer::Written),
];

static WITH_NONE: [(Call, Answer); 1] = [(Call::Write(1026, 1), Answer::Failed)];

static READ_BACK: [(Call, Answer); 3] = [
    (Call::Read(1024), Answer::Failed),
    // Of the write that failed some may be on the disk: the file counts as long as that was to make it, and what is past it is zeros.
    (Call::Read(1026), Answer::Failed),
    (Call::Read(1028), Answer::Filled(0)),
];

#[test]
fn what_the_system_refuses_fails(rt: HostRuntime) {
    let disk = FullDisk;
    let mut zero = SureSwap::new(rt.alloc(), 2048).expect(&rt, "memory for device 0");
    let mut one = FileSwap::new(&disk, "full.swap", 2048);
    let mut pair = SwapPair::new(&mut zero, &mut one);
    let blocks = pair.blocks();
    answers(&rt, &mut pair, &WITH_ROOM);
    let none = pair.failed_write();
    answers(&rt, &mut pair, &WITH_NONE);
    let writing = pair.failed_write();
    answers(&rt, &mut pair, &READ_BACK);
    let reading = pair.failed_read();
    is(
        &rt,
        &(blocks, none, writing, reading),
        &(4096, None, Some(1), Some(1)),
    );
}
