//! Tests of traces with lines of parts of moves.
use crate::checks::is;
use kernel_model::HandPart;
use paged_model::Line;
use repage_command::{Trace, read_trace};
use std::alloc::Global;
use std::process::Abort;
use vm_facts::Page;

// The part of a line, if it is one.
fn part_of(line: Option<&Line>) -> Option<HandPart> {
    match line {
        Some(Line::Part(part)) => Some(*part),
        _ => None,
    }
}

#[test]
fn a_trace_with_parts_is_read(rt: HostRuntime) {
    let trace = b"Z s 1 0\nE d 1 14\nW s 2 8 4\nD\nF x 1 3\n";
    let Ok(Trace::Is(lines)) = read_trace(rt.alloc(), trace) else {
        panic!(&rt; "not read");
    };
    let lines = lines.as_slice();
    let parts = [
        part_of(lines.get(0)),
        part_of(lines.get(1)),
        part_of(lines.get(2)),
        part_of(lines.get(3)),
        part_of(lines.get(4)),
    ];
    let data = Page::Data { sid: 1, v: 14 };
    let stack = Page::Stack { sid: 2, v: 8 };
    let text = Page::Text { image: 1, v: 3 };
    let wanted = [
        None,
        Some(HandPart::Expires { page: data }),
        Some(HandPart::Writes { lo: stack, n: 4 }),
        None,
        Some(HandPart::Frees { page: text }),
    ];
    is(&rt, &lines.len(), &5);
    is(&rt, &parts, &wanted);
}

// The first bad line of a trace.
fn bad_line(rt: &impl Abort, alloc: Global, bytes: &[u8]) -> Option<u32> {
    assert!(rt; bytes.len() < 100);
    match read_trace(alloc, bytes).expect(rt, "memory for a trace") {
        Trace::Is(_) => None,
        Trace::BadLine(line) => Some(line),
    }
}

#[test]
fn the_first_bad_line_of_a_trace_is_told(rt: HostRuntime) {
    let alloc = rt.alloc();
    let bad = [
        bad_line(&rt, alloc, b""),
        bad_line(&rt, alloc, b"t 1\nE d 1 2\nr 1 1\n"),
        bad_line(&rt, alloc, b"t 1\nE d 1\n"),
        bad_line(&rt, alloc, b"E d 1 2 3\n"),
        bad_line(&rt, alloc, b"D\nW d 1 2\n"),
        bad_line(&rt, alloc, b"W d 1 2 0\n"),
        bad_line(&rt, alloc, b"F d 1 02\n"),
        bad_line(&rt, alloc, b"F q 1 2\n"),
        bad_line(&rt, alloc, b"F d 1 2\nF d 1 2"),
    ];
    let wanted = [
        None,
        None,
        Some(2),
        Some(1),
        Some(2),
        Some(1),
        Some(1),
        Some(1),
        Some(2),
    ];
    is(&rt, &bad, &wanted);
}
