//! The forms of numbers, labels, statements and lines: for each a table of texts of that form with what they say, and
//! near misses.
use crate::forms::{
    LOOP, are_lines, are_no_labels, are_no_values, are_numbers, are_outside, are_refused,
    are_statements, are_values, gives, label, minus, plus, said_by, tells, told,
};
use asm_grammar::{Label, Number, SourceLine, Statement, Value, next_item, sentence_of};
use std::alloc::Global;
use std::process::Abort;

// 2^32 stands for each larger one.
static MAGNITUDES: [(&str, Number); 16] = [
    (".long 0", plus!(0)),
    (".long 9", plus!(9)),
    (".long 007", plus!(7)),
    (".long 1234567890", plus!(1_234_567_890)),
    (".long 4294967295", plus!(0xFFFF_FFFF)),
    (".long 0x0", plus!(0)),
    (".long 0x1f", plus!(31)),
    (".long 0x00ff", plus!(255)),
    (".long 0x12345678", plus!(0x1234_5678)),
    (".long 0x90abcdef", plus!(0x90AB_CDEF)),
    (".long 0xffffffff", plus!(0xFFFF_FFFF)),
    (".long 4294967296", plus!(0x1_0000_0000)),
    (".long 4294967297", plus!(0x1_0000_0000)),
    (".long 99999999999999999999", plus!(0x1_0000_0000)),
    (".long 0x100000000", plus!(0x1_0000_0000)),
    (".long 0xffffffffffffffffff", plus!(0x1_0000_0000)),
];

static NO_MAGNITUDES: [&str; 7] = ["0x", "1f", "0x1g", "0b1", "0o17", "1_000", "1.5"];

static CAPITALS: [(&str, &str); 2] = [
    (".long 0X1f", "a capital letter stands in the statement"),
    (".long 0x1F", "a capital letter stands in the statement"),
];

static LARGE: [(&str, &str); 2] = [
    (".long 4294967296", "value out of range"),
    (".long 0x100000000", "value out of range"),
];

#[test]
fn a_magnitude_is_decimal_or_hexadecimal(rt: HostRuntime) {
    are_numbers(&rt, &MAGNITUDES);
    are_no_values(&rt, rt.alloc(), &NO_MAGNITUDES);
    are_outside(&rt, rt.alloc(), &CAPITALS);
    are_refused(&rt, rt.alloc(), &LARGE);
}

// Zero isn't negative.
static NUMBERS: [(&str, Number); 6] = [
    (".long 5", plus!(5)),
    (".long -5", minus!(5)),
    (".long -0x1f", minus!(31)),
    (".long -4294967297", minus!(0x1_0000_0000)),
    (".long -0", plus!(0)),
    (".long -0x0", plus!(0)),
];

static NO_NUMBERS: [&str; 5] = ["-", "--5", "+5", "5-", "0x-5"];

static PARTED_NUMBERS: [(&str, &str); 1] = [(
    ".long - 5",
    "a statement has one space, after its first word",
)];

#[test]
fn a_number_may_have_a_minus(rt: HostRuntime) {
    are_numbers(&rt, &NUMBERS);
    are_no_values(&rt, rt.alloc(), &NO_NUMBERS);
    are_outside(&rt, rt.alloc(), &PARTED_NUMBERS);
}

static LABELS: [(&str, Label); 7] = [
    ("a:", label!(b"a\0\0\0\0\0\0\0\0\0\0\0\0\0\0\0")),
    ("z9:", label!(b"z9\0\0\0\0\0\0\0\0\0\0\0\0\0\0")),
    ("_:", label!(b"_\0\0\0\0\0\0\0\0\0\0\0\0\0\0\0")),
    ("_0_:", label!(b"_0_\0\0\0\0\0\0\0\0\0\0\0\0\0")),
    ("r4:", label!(b"r4\0\0\0\0\0\0\0\0\0\0\0\0\0\0")),
    ("movl:", label!(b"movl\0\0\0\0\0\0\0\0\0\0\0\0")),
    ("abcdefghijklmnop:", label!(b"abcdefghijklmnop")),
];

static NO_LABELS: [&str; 6] = ["abcdefghijklmnopq", "9z", "loop-2", ".loop", "loop ", ""];

#[test]
fn a_label_has_up_to_sixteen_letters_and_digits(rt: HostRuntime) {
    for (line, label) in LABELS.iter() {
        let wanted = SourceLine {
            label: Some(*label),
            statement: None,
        };
        assert_eq!(rt; said_by(line), Some(wanted), "{line}");
    }
    are_no_labels(&rt, rt.alloc(), &NO_LABELS);
}

static VALUES: [(&str, Value); 5] = [
    (".long 0x400", Value::Number(plus!(0x400))),
    (".long -1", Value::Number(minus!(1))),
    (".long loop", Value::Label(LOOP)),
    (
        ".long x1f",
        Value::Label(label!(b"x1f\0\0\0\0\0\0\0\0\0\0\0\0\0")),
    ),
    (
        ".long _",
        Value::Label(label!(b"_\0\0\0\0\0\0\0\0\0\0\0\0\0\0\0")),
    ),
];

static NO_VALUES: [&str; 6] = ["loop+4", "-loop", "$5", "4loop", "'a'", "abcdefghijklmnopq"];

static UNKNOWN: [(&str, &str); 1] = [(".long loop", "unknown label loop")];

#[test]
fn a_value_is_a_number_or_a_label(rt: HostRuntime) {
    are_values(&rt, &VALUES);
    are_no_values(&rt, rt.alloc(), &NO_VALUES);
    are_refused(&rt, rt.alloc(), &UNKNOWN);
}

static STATEMENTS: [(&str, Statement); 9] = [
    (".byte 0x68", Statement::Byte(Value::Number(plus!(0x68)))),
    (".byte loop", Statement::Byte(Value::Label(LOOP))),
    (".word -2", Statement::Word(Value::Number(minus!(2)))),
    (".word loop", Statement::Word(Value::Label(LOOP))),
    (".long 0x400", Statement::Long(Value::Number(plus!(0x400)))),
    (".long loop", Statement::Long(Value::Label(LOOP))),
    (".space 5", Statement::Space(plus!(5))),
    (".space -1", Statement::Space(minus!(1))),
    (".bss 1024", Statement::Bss(plus!(1024))),
];

static NO_STATEMENTS: [(&str, &str); 9] = [
    (".byte", ".byte takes one number or label"),
    (".byte $5", ".byte takes one number or label"),
    (
        ".word loop 5",
        "a statement has one space, after its first word",
    ),
    (".space", ".space takes one number"),
    (".bss loop", ".bss takes one number"),
    (
        ".byte5",
        "unknown directive .byte5: .byte, .word, .long, .space or .bss",
    ),
    (
        ".quad 5",
        "unknown directive .quad: .byte, .word, .long, .space or .bss",
    ),
    (
        ". byte",
        "unknown directive .: .byte, .word, .long, .space or .bss",
    ),
    ("byte 5", "unknown mnemonic byte"),
];

// What the line `nop` says as a statement.
fn nop(rt: &impl Abort) -> Statement {
    let Some(nop) = sentence_of(b"nop") else {
        panic!(rt; "nop");
    };
    Statement::Instruction(nop)
}

#[test]
fn a_statement_is_a_directive_or_an_instruction(rt: HostRuntime) {
    are_statements(&rt, &STATEMENTS);
    are_statements(&rt, &[("nop", nop(&rt))]);
    are_outside(&rt, rt.alloc(), &NO_STATEMENTS);
}

static RANGES: [(&str, &[u8], u32); 6] = [
    (".byte 255\n.byte -128\n", b"\xff\x80", 0),
    (".word 65535\n.word -32768\n", b"\xff\xff\x00\x80", 0),
    (
        ".long 4294967295\n.long -2147483648\n",
        b"\xff\xff\xff\xff\x00\x00\x00\x80",
        0,
    ),
    (
        ".byte 1\n.word 1\n.long 1\n",
        b"\x01\x01\x00\x01\x00\x00\x00",
        0,
    ),
    (".space 0\n.space 3\n.byte 1\n", b"\x00\x00\x00\x01", 0),
    (".byte 1\n.bss 4194304\n.byte 2\n", b"\x01\x02", 4_194_304),
];

static OUT_OF_RANGE: [(&str, &str); 9] = [
    (".byte 256", "value out of range"),
    (".byte -129", "value out of range"),
    (".word 65536", "value out of range"),
    (".word -32769", "value out of range"),
    (".long -2147483649", "value out of range"),
    (".space -1", "value out of range"),
    (".space 65537", "value out of range"),
    (".bss 4194305", "value out of range"),
    (".bss -1", "value out of range"),
];

#[test]
fn the_value_of_a_directive_has_its_range(rt: HostRuntime) {
    for (source, bytes, bss) in RANGES.iter() {
        gives(&rt, rt.alloc(), source.as_bytes(), bytes, *bss);
    }
    are_refused(&rt, rt.alloc(), &OUT_OF_RANGE);
}

const EMPTY: SourceLine = SourceLine {
    label: None,
    statement: None,
};

static LINES: [(&str, SourceLine); 6] = [
    ("", EMPTY),
    ("#", EMPTY),
    ("# loop: nop", EMPTY),
    ("#\tA \u{2013}: $\r", EMPTY),
    (
        "loop:",
        SourceLine {
            label: Some(LOOP),
            statement: None,
        },
    ),
    (
        "loop: .bss 5",
        SourceLine {
            label: Some(LOOP),
            statement: Some(Statement::Bss(plus!(5))),
        },
    ),
];

static NO_LINES: [(&str, &str); 9] = [
    (" ", "a space stands at the beginning of the line"),
    (
        " # k",
        "a comment has a line of its own, which begins with #",
    ),
    (
        "loop: # k",
        "a comment has a line of its own, which begins with #",
    ),
    ("; k", "unknown mnemonic ;"),
    ("loop", "unknown mnemonic loop"),
    ("loop: ", "a space stands at the end of the line"),
    (
        "loop::",
        "one space stands between a label and its statement",
    ),
    ("loop: m: nop", "unknown mnemonic m:"),
    ("nop; nop", "unknown mnemonic nop;"),
];

#[test]
fn a_line_is_empty_or_a_comment_or_a_label_and_a_statement(rt: HostRuntime) {
    are_lines(&rt, &LINES);
    let statement = Some(nop(&rt));
    let alone = SourceLine {
        label: None,
        statement,
    };
    let labelled = SourceLine {
        label: Some(LOOP),
        statement,
    };
    are_lines(&rt, &[("nop", alone), ("loop: nop", labelled)]);
    are_outside(&rt, rt.alloc(), &NO_LINES);
}

// A line that begins so and goes on with zeros, of so many bytes.
fn with_zeros(rt: &impl Abort, alloc: Global, front: &str, len: usize) -> String {
    let mut line = front.to_string(alloc).expect(rt, "memory for a line");
    for _ in front.len()..len {
        line.push('0').expect(rt, "memory for a line");
    }
    line
}

// Checks that a line which begins so is one with 120 bytes, and none with one more.
fn ends_at_120_bytes(rt: &impl Abort, alloc: Global, front: &str) {
    let longest = with_zeros(rt, alloc, front, 120);
    let longer = with_zeros(rt, alloc, front, 121);
    let says = said_by(longest.as_str()).is_some();
    assert_eq!(rt;
        (longest.len(), says, said_by(longer.as_str())),
        (120, true, None),
        "{front}"
    );
    tells(rt, alloc, longer.as_str(), "line too long");
}

#[test]
fn a_line_has_at_most_120_bytes(rt: HostRuntime) {
    ends_at_120_bytes(&rt, rt.alloc(), "#");
    ends_at_120_bytes(&rt, rt.alloc(), ".long ");
    ends_at_120_bytes(&rt, rt.alloc(), "loop: .space ");
}

// Checks what the lines of a source say, one after another.
fn says(rt: &impl Abort, source: &str, items: &[Option<SourceLine>]) {
    let mut rest = source.as_bytes();
    for item in items.iter() {
        if rest.is_empty() {
            panic!(rt; "{source:?}: no line");
        }
        let (said, more) = next_item(rest);
        assert_eq!(rt; said, *item, "{source:?}");
        rest = more;
    }
    assert!(rt; rest.is_empty(), "{source:?}");
}

#[test]
fn each_line_of_a_source_is_ended_by_a_line_feed(rt: HostRuntime) {
    let empty = said_by("");
    let nop = said_by("nop");
    says(&rt, "", &[]);
    says(&rt, "\n", &[empty]);
    says(&rt, "nop\n", &[nop]);
    says(&rt, "nop\n\n# k\nnop\n", &[nop, empty, empty, nop]);
    says(&rt, "no\nnop\n", &[None, nop]);
    says(&rt, "nop\r\n", &[None]);
    says(&rt, "nop", &[None]);
    says(&rt, "nop\nnop", &[nop, None]);
    says(&rt, "\n#", &[empty, None]);
    let told = told(&rt, rt.alloc(), "#");
    let wanted = b"vmrun: line 1: the last line has no line feed\n";
    assert_eq!(rt; told.as_slice(), wanted.as_slice());
}
