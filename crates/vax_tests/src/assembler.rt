//! What no clause says: the bytes of sources that were written down before the assembler was, and the texts of
//! instructions.
use crate::examples::EXAMPLES;
use crate::forms::gives;
use std::alloc::Global;
use std::process::Abort;
use vax_asm::{Assembled, BadLine, Encoded, Label, Reason, assemble, encode, explain};
use vax_disasm::{Shown, show};

// The line names these bytes.
fn encoded(rt: &impl Abort, line: &[u8], at: u32, wanted: &[u8]) {
    let Encoded::Is { bytes, length } = encode(line, at) else {
        panic!(rt; "bad");
    };
    assert_eq!(rt; &bytes[..length as usize], wanted);
}

// Where an instruction is shown, its text names its bytes again.
fn named_again(rt: &impl Abort, bytes: &[u8], at: u32) {
    if at as usize >= bytes.len() {
        return;
    }
    let rest = &bytes[at as usize..];
    let Shown::Is { text, length, size } = show(rest, at) else {
        return;
    };
    encoded(rt, &text[..length as usize], at, &rest[..size as usize]);
}

#[test]
fn the_examples_are_assembled(rt: HostRuntime) {
    for example in EXAMPLES.iter() {
        gives(&rt, rt.alloc(), example.source, example.bytes, example.bss);
        for at in 0..128 {
            named_again(&rt, example.bytes, at);
        }
    }
}

const M: Label = Label {
    bytes: *b"m\0\0\0\0\0\0\0\0\0\0\0\0\0\0\0",
};

// Sources whose second line is the lowest bad one, and the reason.
static BAD: [(&[u8], Reason); 10] = [
    (b"clrl r0\nl: brb m\n", Reason::UnknownLabel(M)),
    (b"m:\nm:\nclrl $5\n", Reason::LabelTwice(M)),
    (b"nop\nl: brb l", Reason::NoLineFeed),
    (b"nop\nmovl 5,r1\n", Reason::NotStatement),
    (b"nop\nmovl $64,r0\n", Reason::ValueOutOfRange),
    (b"l: .space 127\nbrb l\n", Reason::BranchOutOfRange),
    (b"nop\nclrl $5\n", Reason::OperandRefused),
    (b"brb m\nm: clrl r1[r2]\n", Reason::OperandRefused),
    (b".bss 1\n.bss 2\n", Reason::SecondBss),
    (b".space 65536\n.byte 0\n", Reason::ProgramTooLong),
];

// Checks that line 2 is the lowest bad line of a source, for this reason.
fn is_bad(rt: &impl Abort, alloc: Global, source: &[u8], reason: Reason) {
    assert!(rt;
        matches!(assemble(alloc, source), Ok(Assembled::BadLine(2))),
        "{reason:?}"
    );
    let told = explain(alloc, source).ok().flatten();
    assert_eq!(rt; told, Some(BadLine { number: 2, reason }));
}

#[test]
fn the_lowest_bad_line_is_named_with_its_reason(rt: HostRuntime) {
    let alloc = rt.alloc();
    let bytes = b"\x00\x00\xd4\x50\x11\xfe".as_slice();
    gives(&rt, alloc, b".word 0\nclrl r0\nl: brb l\n", bytes, 0);
    assert!(rt; matches!(explain(alloc, b"l: brb l\n"), Ok(None)));
    for (source, reason) in BAD.iter() {
        is_bad(&rt, alloc, source, *reason);
    }
}

// Instructions, the address of each, and how it is shown.
static SHOWN: [(&[u8], u32, &[u8]); 10] = [
    (&[0x01, 0xFF], 0, b"nop"),
    (&[0xD0, 0x05, 0x81], 9, b"movl $0x5,(r1)+"),
    (&[0x90, 0x8F, 0x70, 0x51], 2, b"movb i^$0x70,r1"),
    (&[0x11, 0xFE], 4, b"brb 0x4"),
    (&[0x11, 0xFC], 0, b"brb 0xfffffffe"),
    (&[0x94, 0x43, 0xDF, 0xFE, 0xFF], 0, b"clrb *w^-0x2(r15)[r3]"),
    (&[0xD4, 0x73], 0, b"clrl -(r3)"),
    (&[0xD4, 0x93], 0, b"clrl *(r3)+"),
    (&[0xD4, 0x63], 0, b"clrl (r3)"),
    (&[0xD4, 0xEA, 0, 0, 0, 0x80], 0, b"clrl l^-0x80000000(r10)"),
];

// Checks how the instruction is shown that these bytes begin with, and that it is named again.
fn is_shown(rt: &impl Abort, bytes: &[u8], at: u32, wanted: &[u8]) {
    let Shown::Is { text, length, size } = show(bytes, at) else {
        panic!(rt; "no instruction");
    };
    assert_eq!(rt; &text[..length as usize], wanted);
    encoded(rt, wanted, at, &bytes[..size as usize]);
}

#[test]
fn each_form_of_operand_is_shown_and_named_again(rt: HostRuntime) {
    // The text of an image, one instruction after another.
    let bytes = EXAMPLES[0].bytes;
    is_shown(&rt, &bytes[2..], 2, b"moval *$0x20,r12");
    is_shown(&rt, &bytes[9..], 9, b"chmk $0x4");
    is_shown(&rt, &bytes[0xb..], 0xb, b"moval *$0x30,r12");
    is_shown(&rt, &bytes[0x12..], 0x12, b"chmk $0x1");
    assert_eq!(rt; show(&bytes[0x14..], 0x14), Shown::NoInstruction);
    for (bytes, at, wanted) in SHOWN.iter() {
        is_shown(&rt, bytes, *at, wanted);
    }
    encoded(&rt, b"calls $-0,*$0010", 0, &[0xFB, 0, 0x9F, 10, 0, 0, 0]);
}
