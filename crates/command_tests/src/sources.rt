//! Why a source is bad, as it is told: a line with each mistake.
use crate::fixtures::{mem_files, says};
use source_commands::explain_source;
use std::alloc::Global;
use std::process::Abort;

// The second line of a source, and what is told of it.
static ROWS: [(&str, &[u8]); 47] = [
    ("nop\r", b"a carriage return stands before the line feed"),
    (
        "nop # wait",
        b"a comment has a line of its own, which begins with #",
    ),
    (
        "movl #5,r1",
        b"a comment has a line of its own, which begins with #",
    ),
    ("\tnop", b"a tab stands in the line"),
    (
        "movl \u{2013}(r14),r1",
        b"a byte stands in the line that is no printable ASCII",
    ),
    (" nop", b"a space stands at the beginning of the line"),
    ("nop ", b"a space stands at the end of the line"),
    (
        "Loop: nop",
        b"Loop is no label: 1 to 16 of a to z, _ and digits, no digit first",
    ),
    (
        "1: nop",
        b"1 is no label: 1 to 16 of a to z, _ and digits, no digit first",
    ),
    (
        "l:nop",
        b"one space stands between a label and its statement",
    ),
    (
        "l:  nop",
        b"one space stands between a label and its statement",
    ),
    ("MOVL r1,r2", b"a capital letter stands in the statement"),
    ("movl $0xA,r2", b"a capital letter stands in the statement"),
    (
        ".ascii 5",
        b"unknown directive .ascii: .byte, .word, .long, .space or .bss",
    ),
    (".long", b".long takes one number or label"),
    (".long 1,2", b".long takes one number or label"),
    (".space lab", b".space takes one number"),
    ("foo r1", b"unknown mnemonic foo"),
    ("l: movq r1,r2", b"unknown mnemonic movq"),
    (
        "movl r1, r2",
        b"a statement has one space, after its first word",
    ),
    (
        "movl  r1,r2",
        b"a statement has one space, after its first word",
    ),
    (
        ".long  1",
        b"a statement has one space, after its first word",
    ),
    ("movl r1", b"movl takes 2 operands, not 1"),
    ("movl", b"movl takes 2 operands, not 0"),
    ("clrl r1,r2", b"clrl takes 1 operand, not 2"),
    ("nop r1", b"nop takes no operand, not 1"),
    ("addl3 r1,r2,r3,r4,r5", b"addl3 takes 3 operands, not 5"),
    ("movl r1,", b"an operand is missing beside a comma"),
    (
        "brb r1+2",
        b"r1+2 is no target of a branch: a label or a number",
    ),
    (
        "blbs r1,(r2)",
        b"(r2) is no target of a branch: a label or a number",
    ),
    ("movl sp,r1", b"sp is no name of a register: write r14"),
    ("movl r1,-(sp)", b"sp is no name of a register: write r14"),
    ("movl 4(fp),r1", b"fp is no name of a register: write r13"),
    ("movl b^4(ap),r1", b"ap is no name of a register: write r12"),
    (
        "movl (r1)[pc],r1",
        b"pc is no name of a register: write r15",
    ),
    ("movl 4(r1),r2", b"4(r1) has no size: write b^4(r1)"),
    ("movl *-8(r13),r2", b"-8(r13) has no size: write b^-8(r13)"),
    (
        "movl 400(r1)[r2],r2",
        b"400(r1)[r2] has no size: write w^400(r1)[r2]",
    ),
    (
        "movl 70000(r1),r2",
        b"70000(r1) has no size: write l^70000(r1)",
    ),
    (
        "movl $lab,r1",
        b"$lab is no short literal, 0 to 63: write i^$lab",
    ),
    (
        "movl 5,r1",
        b"5 is the target of a branch: write i^$ before it for the value, *$ for what is there",
    ),
    (
        "movl r1,lab",
        b"lab is the target of a branch: write i^$ before it for the value, *$ for what is there",
    ),
    ("movl i^$lab+4,r1", b"i^$lab+4 is no operand"),
    ("movl r1,(r16)", b"(r16) is no operand"),
    (
        "cmpl r1,$70",
        b"value out of range: $70 is no short literal, 0 to 63: write i^$70",
    ),
    (
        "l: cmpl r1,$-1",
        b"value out of range: $-1 is no short literal, 0 to 63: write i^$-1",
    ),
    ("cmpl b^200(r1),r2", b"value out of range"),
];

// The line that is told of a source of NOP, this line and a label, where one is.
fn told_of(rt: &impl Abort, alloc: Global, line: &str) -> Option<Vec<u8>> {
    let source = format!(in alloc; "nop\n{line}\nlab:\n").expect(rt, "memory for a source");
    let mut files = mem_files(rt, alloc, &[("bad", source.as_bytes())], &[]);
    explain_source(alloc, &mut files, "bad").expect(rt, "a file that is read")
}

#[test]
fn what_stands_in_a_bad_line_is_told(rt: HostRuntime) {
    for (line, reason) in ROWS.iter() {
        let told = told_of(&rt, rt.alloc(), line);
        says(&rt, told, b"vmrun: line 2: ", reason);
    }
}
