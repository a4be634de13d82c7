//! Files of references: what they read as, why the first bad lines of a few are bad, and the text about policies.
ghost use Rattle.command_words.specs.Command.{IsFittingComparison};

use crate::checks::are;
use crate::fixtures::{mem_files, says, says_nothing};
use command_words::Comparison;
use io_edge::MemSink;
use line_reasons::explain_references;
use reference_answers::{References, compare_policies, read_references, references_text};
use std::alloc::Global;
use std::process::Abort;
use vm_facts::Page;

// The references of a file of these bytes.
fn references_of(rt: &impl Abort, alloc: Global, bytes: &[u8]) -> Vec<Page> {
    assert!(rt; bytes.len() <= 1_000);
    let read = read_references(alloc, bytes).expect(rt, "memory for references");
    let References::Are(refs) = read else {
        panic!(rt; "a bad line");
    };
    refs
}

static IN_FILE: [Page; 5] = [
    Page::Text { image: 1, v: 0 },
    Page::Data {
        sid: 2,
        v: 4_294_967_295,
    },
    Page::Data { sid: 0, v: 0 },
    Page::Stack {
        sid: 4_294_967_295,
        v: 7,
    },
    Page::Data { sid: 0, v: 17 },
];

#[test]
fn a_file_of_references_is_read(rt: HostRuntime) {
    let file = b"# a trace\r\n\nx 1 0\nd 2 4294967295\n0\ns 4294967295 7\n17\n";
    let refs = references_of(&rt, rt.alloc(), file);
    are(&rt, refs.as_slice(), &IN_FILE);
}

static WRITTEN: [Page; 3] = [
    Page::Text { image: 1, v: 0 },
    Page::Data { sid: 3, v: 14 },
    Page::Stack { sid: 12, v: 5 },
];

#[test]
fn references_are_written_as_they_are_read(rt: HostRuntime) {
    let text = references_text(rt.alloc(), &WRITTEN).expect(&rt, "memory for a text");
    are(&rt, text.as_slice(), b"x 1 0\nd 3 14\ns 12 5\n");
}

// The bytes of a file of references, and what is told of it.
static ROWS: [(&[u8], &[u8]); 16] = [
    (
        b"7\r\n8\r\n",
        b"1: a carriage return stands before the line's end",
    ),
    (b"d\t1 2\n", b"1: a tab: parts have one blank between them"),
    (b" 7\n", b"1: a blank too many: parts have one between them"),
    (
        b"7\nd 1  2\n",
        b"2: a blank too many: parts have one between them",
    ),
    (
        b"x 1 2 \n",
        b"1: a blank too many: parts have one between them",
    ),
    (
        b"D 1 2\n",
        b"1: D is no reference: d, s, x, or a number, 0 to 4294967295, with no zero in front",
    ),
    (
        b"07\n",
        b"1: 07 is no reference: d, s, x, or a number, 0 to 4294967295, with no zero in front",
    ),
    (
        b"4294967296\n",
        b"1: 4294967296 is no reference: d, s, x, or a number, 0 to 4294967295, with no zero in front",
    ),
    (
        b"\x01\n",
        b"1: ... is no reference: d, s, x, or a number, 0 to 4294967295, with no zero in front",
    ),
    (
        b"x\n",
        b"1: SID or IMAGE is missing: 0 to 4294967295, with no zero in front",
    ),
    (
        b"# one\n\ns 4\n",
        b"3: V is missing: 0 to 4294967295, with no zero in front",
    ),
    (
        b"d 0x1 2\n",
        b"1: SID or IMAGE is 0x1: 0 to 4294967295, with no zero in front",
    ),
    (
        b"d 1 00\n",
        b"1: V is 00: 0 to 4294967295, with no zero in front",
    ),
    (b"7 8\n", b"1: 8 is a part too many"),
    (b"s 1 2 3\n", b"1: 3 is a part too many"),
    (b"d 1 2\nd 1 2", b"2: the last line has no line feed"),
];

// The line that is told of a file `r` of these bytes, where one is.
fn told_of(rt: &impl Abort, alloc: Global, bytes: &[u8]) -> Option<Vec<u8>> {
    let mut files = mem_files(rt, alloc, &[("r", bytes)], &[]);
    explain_references(alloc, &mut files, "r").expect(rt, "a file that is read")
}

#[test]
fn a_bad_line_of_references_has_its_first_reason(rt: HostRuntime) {
    for (bytes, reason) in ROWS.iter() {
        let told = told_of(&rt, rt.alloc(), bytes);
        says(&rt, told, b"vmrun: r line ", reason);
    }
}

#[test]
fn of_good_references_nothing_is_told(rt: HostRuntime) {
    let told = told_of(&rt, rt.alloc(), b"# 07\t\r\n\nd 0 0\n4294967295\n");
    says_nothing(&rt, told);
}

// Checks the status of policies that are compared so on a file of references, and what is written about them.
fn are_compared(
    rt: &impl Abort,
    alloc: Global,
    comparison: Comparison,
    bytes: &[u8],
    status: u8,
    text: &[u8],
)
    requires { IsFittingComparison comparison }
{
    let mut files = mem_files(rt, alloc, &[("r", bytes)], &[]);
    let mut sink = MemSink::new(alloc, 400, Vec::new(alloc)).expect(rt, "memory for an output");
    let ended = compare_policies(alloc, &mut files, &mut sink, comparison, "r");
    assert_eq!(rt; (ended, sink.written()), (status, text));
}

#[test]
fn policies_are_compared_on_a_file(rt: HostRuntime) {
    let alloc = rt.alloc();
    let file = b"x 1 0\nx 1 0\nd 1 0\nd 1 1\nx 1 0\nd 1 0\nx 1 0\nx 1 0\nd 1 0\n";

    // With two frames, of which the front hand is at the back hand's; and with one frame and with three.
    let two = Comparison::At {
        frames: 2,
        spread: 0,
    };
    let each = Comparison::Sweep {
        from: 1,
        to: 4,
        every: 2,
    };
    let faults = b"fifo 5\nclock 5\nhands 5\nlru 5\nleast 4\n";
    are_compared(&rt, alloc, two, file, 0, faults);
    let faults =
        b"1 fifo 7 clock 7 hands 7 lru 7 least 7\n3 fifo 3 clock 3 hands 3 lru 3 least 3\n";
    are_compared(&rt, alloc, each, file, 0, faults);
    let told = b"vmrun: bad references line 2\n";
    are_compared(&rt, alloc, two, b"1\n01\n", 18, told);
}
