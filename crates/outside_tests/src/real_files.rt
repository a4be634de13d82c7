//! Real files that aren't plain ones of a run's own: pipes, files of /proc, folders, links, and files that another
//! run has. They are made and removed in the folder that the tests run in.
use crate::calls::{Answer, Call, answers};
use crate::checks::{are, is};
use crate::folder::{bytes_at, length_of, make, make_folder, remove, remove_folder, told};
use io_edge::{Files, Found, Moved, SureSwap, SwapDev};
use std::alloc::{AllocError, Global};
use std::fs::File;
use std::io::Write;
use std::os::unix::fs::symlink;
use std::os::unix::io::AsRawFd;
use std::process::Abort;
use std::{fs, io, rt};
use system_calls::Host;
use system_edge::{DirFiles, FileSwap};

// The name of an open descriptor.
fn descriptor_name(alloc: Global, fd: i32) -> Result<String, AllocError> {
    format!(in alloc; "/dev/fd/{fd}")
}

// Checks the pipe of this name, which has five bytes.
fn is_read_whole_and_once<R: Abort + rt::Files<File = File>>(rt: &R, alloc: Global, name: &str) {
    let host = Host(rt);
    let words = [name];
    let mut files = DirFiles::new(alloc, &host, &words);
    let Found::Is { id, len } = files.find(name) else {
        panic!(rt; "not found");
    };
    let read = [
        bytes_at(&mut files, id, 2),
        bytes_at(&mut files, id, 0),
        bytes_at(&mut files, id, 3),
    ];
    let again = files.find(name);
    assert_eq!(rt; (len, again), (5, Found::Is { id, len }));
    assert_eq!(rt; read, [Some(*b"llo"), Some(*b"hel"), None]);
}

#[test]
fn reads_a_pipe_whole_and_once(rt: HostRuntime) {
    let (reader, mut writer) = io::pipe(&rt).expect(&rt, "a pipe");
    writer.write_all(b"hello").expect(&rt, "room in the pipe");
    drop(writer);
    let name = descriptor_name(rt.alloc(), reader.as_raw_fd());
    let name = name.expect(&rt, "memory for a name");
    is_read_whole_and_once(&rt, rt.alloc(), name.as_str());
}

// Checks a file of /proc, and one that has no bytes.
fn are_read_with_no_length<R: Abort + rt::Files<File = File>>(rt: &R, alloc: Global) {
    let host = Host(rt);
    let words = ["/proc/self/statm", "/dev/null"];
    let mut files = DirFiles::new(alloc, &host, &words);
    let Found::Is { id, len } = files.find("/proc/self/statm") else {
        panic!(rt; "not found");
    };
    assert!(rt; len > 0);
    let last = [
        bytes_at(&mut files, id, len - 1),
        bytes_at(&mut files, id, len),
    ];
    let null = files.find("/dev/null");
    assert_eq!(rt; last, [Some([b'\n']), None]);
    assert!(rt; matches!(null, Found::Is { len: 0, .. }), "{null:?}");
}

// The system says the length 0 of files of /proc, and they have bytes.
#[test]
fn reads_what_has_no_length_by_the_system(rt: HostRuntime) {
    are_read_with_no_length(&rt, rt.alloc());
}

// Checks what is told of a folder, and of a file of five bytes.
fn are_named_where_refused<R: Abort + rt::Files<File = File>>(rt: &R, alloc: Global) {
    let host = Host(rt);
    let words = ["refused.folder", "short.file"];
    let mut files = DirFiles::new(alloc, &host, &words);
    let at_first = files.last_refusal().is_none();
    let found = files.find("refused.folder");
    let of_folder = told(alloc, files.last_refusal());
    let Found::Is { id, .. } = files.find("short.file") else {
        panic!(rt; "not found");
    };
    let read: Option<[u8; 9]> = bytes_at(&mut files, id, 0);
    let of_file = told(alloc, files.last_refusal());
    assert_eq!(rt; (at_first, found, read), (true, Found::Failed, None));
    assert_eq!(rt;
        [of_folder.as_str(), of_file.as_str()],
        [
            "refused.folder: Is a directory (os error 21)",
            "short.file: failed to fill whole buffer"
        ]
    );
}

#[test]
fn names_the_file_that_the_system_refused(rt: HostRuntime) {
    make_folder(&rt, "refused.folder");
    make(&rt, "short.file", "hello");
    are_named_where_refused(&rt, rt.alloc());
    remove_folder(&rt, "refused.folder");
    remove(&rt, "short.file");
}

// Checks what a device answers to each of these calls, and how long its file is after each.
fn grows<R: Abort + rt::Files, D: SwapDev>(
    rt: &R,
    device: &mut D,
    name: &str,
    calls: &[(Call, Answer, u64)],
) {
    for (call, wanted, length) in calls {
        answers(rt, device, &[(*call, *wanted)]);
        assert_eq!(rt; length_of(rt, name), Some(*length), "{call:?}");
    }
}

static GROWING: [(Call, Answer, u64); 5] = [
    (Call::Read(65_534), Answer::Filled(0), 0),
    (Call::Write(2, 1), Answer::Written, 2_048),
    (Call::Write(0, 2), Answer::Written, 2_048),
    (Call::WriteThree(8, [4, 5, 6]), Answer::Pages(3), 7_168),
    (Call::Write(65_534, 3), Answer::Written, 33_554_432),
];

static GROWN: [(Call, Answer); 8] = [
    (Call::Read(0), Answer::Filled(2)),
    (Call::Read(2), Answer::Filled(1)),
    (Call::Read(4), Answer::Filled(0)),
    (Call::Read(8), Answer::Filled(4)),
    (Call::Read(10), Answer::Filled(5)),
    (Call::Read(12), Answer::Filled(6)),
    (Call::Read(14), Answer::Filled(0)),
    (Call::Read(65_534), Answer::Filled(3)),
];

#[test]
fn grows_its_file_as_it_is_written(rt: HostRuntime) {
    let host = Host(&rt);
    let mut swap = FileSwap::new(&host, "grown.swap", 65_536);
    grows(&rt, &mut swap, "grown.swap", &GROWING);
    answers(&rt, &mut swap, &GROWN);
    remove(&rt, "grown.swap");
}

static WRITTEN: [(Call, Answer); 1] = [(Call::Write(0, 5), Answer::Written)];

static REFUSED: [(Call, Answer); 2] = [
    (Call::Write(0, 6), Answer::Failed),
    (Call::Read(0), Answer::Failed),
];

static READ: [(Call, Answer); 1] = [(Call::Read(0), Answer::Filled(5))];

static TAKEN: [(Call, Answer); 2] = [
    (Call::Write(2, 6), Answer::Written),
    (Call::Read(0), Answer::Filled(0)),
];

#[test]
fn has_its_file_for_itself(rt: HostRuntime) {
    let host = Host(&rt);
    let mut first = FileSwap::new(&host, "one.swap", 8);
    let mut second = FileSwap::new(&host, "one.swap", 8);
    answers(&rt, &mut first, &WRITTEN);
    answers(&rt, &mut second, &REFUSED);
    let why = told(rt.alloc(), second.last_refusal());
    answers(&rt, &mut first, &READ);
    drop(first);
    answers(&rt, &mut second, &TAKEN);
    let wanted = "one.swap: in use by another run in this folder, or as a file of this run";
    are(&rt, why.as_bytes(), wanted.as_bytes());
    remove(&rt, "one.swap");
}

// How a device on this name answers a write, and what it tells of that.
fn answered(rt: &HostRuntime, name: &str) -> (Moved, String) {
    let host = Host(rt);
    let mut swap = FileSwap::new(&host, name, 8);
    let moved = swap.write(0, &[5; 1024]);
    (moved, told(rt.alloc(), swap.last_refusal()))
}

// Checks that a write was refused for this reason, and that the file of another is as it was.
fn is_refused(rt: &impl Abort, answered: &(Moved, String), why: &str, kept: io::Result<String>) {
    let kept = kept.expect(rt, "a file that is read");
    let (moved, reason) = answered;
    assert_eq!(rt;
        (*moved, reason.as_str(), kept.as_str()),
        (Moved::Failed, why, "precious")
    );
}

static NOT_ITS_OWN: [(&str, &str); 5] = [
    ("linked.swap", "linked.swap: is a link, and no plain file"),
    (
        "dangling.swap",
        "dangling.swap: is a link, and no plain file",
    ),
    (
        "second.swap",
        "second.swap: is a file that has another name too",
    ),
    ("folder.swap", "folder.swap: is no plain file"),
    ("/dev/null", "/dev/null: is no plain file"),
];

#[test]
fn refuses_a_file_that_is_not_its_own(rt: HostRuntime) {
    make(&rt, "precious.file", "precious");
    symlink(&rt, "precious.file", "linked.swap").expect(&rt, "a link");
    symlink(&rt, "absent.file", "dangling.swap").expect(&rt, "a link");
    fs::hard_link(&rt, "precious.file", "second.swap").expect(&rt, "another name");
    make_folder(&rt, "folder.swap");
    for (name, why) in NOT_ITS_OWN.iter() {
        let answered = answered(&rt, name);
        let kept = fs::read_to_string(&rt, "precious.file");
        is_refused(&rt, &answered, why, kept);
    }
    let is_made = fs::exists(&rt, "absent.file").expect(&rt, "an answer");
    is(&rt, &is_made, &false);
    remove(&rt, "linked.swap");
    remove(&rt, "dangling.swap");
    remove(&rt, "second.swap");
    remove(&rt, "precious.file");
    remove_folder(&rt, "folder.swap");
}

static AFTER_WRITTEN: [(Call, Answer); 12] = [
    (Call::Read(6), Answer::Filled(0)),
    (Call::Write(6, 1), Answer::Written),
    (Call::Read(2), Answer::Filled(0)),
    (Call::Write(2, 2), Answer::Written),
    (Call::Read(4_000), Answer::Filled(0)),
    (Call::Write(4_000, 3), Answer::Written),
    (Call::Read(131_070), Answer::Filled(0)),
    (Call::Read(4_002), Answer::Filled(0)),
    (Call::Read(4_000), Answer::Filled(3)),
    (Call::Read(6), Answer::Filled(1)),
    (Call::Read(2), Answer::Filled(2)),
    (Call::Read(0), Answer::Filled(0)),
];

#[test]
fn holds_zeros_after_what_was_written(rt: HostRuntime) {
    let mut swap = SureSwap::new(rt.alloc(), 131_072).expect(&rt, "memory for a device");
    answers(&rt, &mut swap, &AFTER_WRITTEN);
}
