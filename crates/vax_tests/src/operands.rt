//! The forms of operands and instructions: for each a table of texts of that form with what they say, and near
//! misses.
use crate::forms::{
    LOOP, are_no_operands, are_no_targets, are_only_targets, are_operands, are_outside, are_places,
    are_refused, label, minus, operand_of, plus,
};
use asm_grammar::{Label, Number, Place, Value, Written, sentence_of};
use std::process::Abort;
use vax_asm::{Encoded, encode};
use vax_code::rows;

const LAB: Value = Value::Label(label!(b"lab\0\0\0\0\0\0\0\0\0\0\0\0\0"));

// A register with a displacement of so many bytes.
macro_rules! displaced {
    ($size:expr, $by:expr, $reg:expr) => {
        Place::Disp {
            size: $size,
            reg: $reg,
            by: $by,
            deferred: false,
        }
    };
}

// The same, where the address of the operand stands there.
macro_rules! displaced_deferred {
    ($size:expr, $by:expr, $reg:expr) => {
        Place::Disp {
            size: $size,
            reg: $reg,
            by: $by,
            deferred: true,
        }
    };
}

static REGISTERS: [(&str, Written); 16] = [
    ("tstl r0", Written::Register(0)),
    ("tstl r1", Written::Register(1)),
    ("tstl r2", Written::Register(2)),
    ("tstl r3", Written::Register(3)),
    ("tstl r4", Written::Register(4)),
    ("tstl r5", Written::Register(5)),
    ("tstl r6", Written::Register(6)),
    ("tstl r7", Written::Register(7)),
    ("tstl r8", Written::Register(8)),
    ("tstl r9", Written::Register(9)),
    ("tstl r10", Written::Register(10)),
    ("tstl r11", Written::Register(11)),
    ("tstl r12", Written::Register(12)),
    ("tstl r13", Written::Register(13)),
    ("tstl r14", Written::Register(14)),
    ("tstl r15", Written::Register(15)),
];

static NEARLY_REGISTERS: [&str; 3] = ["r16", "r04", "r"];

static NO_REGISTERS: [&str; 2] = ["r-4", "%r4"];

#[test]
fn a_register_is_r_and_its_number(rt: HostRuntime) {
    are_operands(&rt, &REGISTERS);
    are_only_targets(&rt, rt.alloc(), &NEARLY_REGISTERS);
    are_no_operands(&rt, rt.alloc(), &NO_REGISTERS);
}

static DEFERRED: [(&str, Place); 3] = [
    ("tstl (r0)", Place::Deferred(0)),
    ("tstl (r4)", Place::Deferred(4)),
    ("tstl (r15)", Place::Deferred(15)),
];

static NO_PARENTHESES: [&str; 6] = ["()", "(4)", "(lab)", "(r4", "r4)", "((r4))"];

static PARTED_PARENTHESES: [(&str, &str); 1] = [(
    "tstl ( r4)",
    "a statement has one space, after its first word",
)];

#[test]
fn parentheses_hold_a_register(rt: HostRuntime) {
    are_places(&rt, &DEFERRED);
    are_no_operands(&rt, rt.alloc(), &NO_PARENTHESES);
    are_outside(&rt, rt.alloc(), &PARTED_PARENTHESES);
}

static MARKED: [(&str, Place); 3] = [
    ("tstl b^4(r12)", displaced!(1, plus!(4), 12)),
    ("tstl w^4(r12)", displaced!(2, plus!(4), 12)),
    ("tstl l^4(r12)", displaced!(4, plus!(4), 12)),
];

static NO_MARKS: [&str; 5] = ["q^4(r12)", "s^4(r12)", "^4(r12)", "b4(r12)", "b^w^4(r12)"];

static CAPITAL_MARK: [(&str, &str); 1] = [(
    "tstl B^4(r12)",
    "a capital letter stands in the statement",
)];

#[test]
fn a_mark_stands_before_a_displacement(rt: HostRuntime) {
    are_places(&rt, &MARKED);
    are_no_operands(&rt, rt.alloc(), &NO_MARKS);
    are_outside(&rt, rt.alloc(), &CAPITAL_MARK);
}

static PLACES: [(&str, Place); 16] = [
    ("tstl (r4)", Place::Deferred(4)),
    ("tstl -(r4)", Place::AutoDec(4)),
    ("tstl -(r15)", Place::AutoDec(15)),
    ("tstl (r4)+", Place::AutoInc(4)),
    ("tstl (r14)+", Place::AutoInc(14)),
    ("tstl *(r4)+", Place::AutoIncDef(4)),
    ("tstl *(r14)+", Place::AutoIncDef(14)),
    ("tstl *$0x404", Place::Absolute(Value::Number(plus!(0x404)))),
    ("tstl *$-4", Place::Absolute(Value::Number(minus!(4)))),
    ("tstl *$lab", Place::Absolute(LAB)),
    ("tstl b^-8(r13)", displaced!(1, minus!(8), 13)),
    ("tstl w^0x400(r0)", displaced!(2, plus!(0x400), 0)),
    ("tstl l^70000(r15)", displaced!(4, plus!(70000), 15)),
    ("tstl *b^4(r12)", displaced_deferred!(1, plus!(4), 12)),
    ("tstl *w^-8(r13)", displaced_deferred!(2, minus!(8), 13)),
    ("tstl *l^0(r9)", displaced_deferred!(4, plus!(0), 9)),
];

static NO_PLACES: [&str; 18] = [
    "(r15)+",
    "*(r15)+",
    "(r4)-",
    "+(r4)",
    "-(r4)+",
    "-r4",
    "*(r4)",
    "*-(r4)",
    "*r4",
    "*404",
    "*$",
    "*$(r4)",
    "**$404",
    "b^(r12)",
    "b^lab(r12)",
    "b^4",
    "b^4(r12)+",
    "b^*4(r12)",
];

static REFUSED_PLACES: [(&str, &str); 3] = [
    ("tstl (r15)", "operand refused"),
    ("tstl -(r15)", "operand refused"),
    ("tstl *$0x100000000", "value out of range"),
];

#[test]
fn an_operand_that_has_an_address_is_one_of_seven(rt: HostRuntime) {
    are_places(&rt, &PLACES);
    are_no_operands(&rt, rt.alloc(), &NO_PLACES);
    are_refused(&rt, rt.alloc(), &REFUSED_PLACES);
}

static WITHOUT_ADDRESS: [(&str, Written); 7] = [
    ("tstl $48", Written::Literal(plus!(48))),
    ("tstl $0x3f", Written::Literal(plus!(63))),
    ("tstl $-1", Written::Literal(minus!(1))),
    (
        "tstl i^$0x400",
        Written::Immediate(Value::Number(plus!(0x400))),
    ),
    ("tstl i^$-1", Written::Immediate(Value::Number(minus!(1)))),
    ("tstl i^$lab", Written::Immediate(LAB)),
    ("tstl r4", Written::Register(4)),
];

static NO_LITERALS: [&str; 8] = ["$", "$(r4)", "$$5", "$5+1", "i^5", "i$5", "i^$", "i^*$5"];

#[test]
fn an_operand_that_has_no_address_is_one_of_three(rt: HostRuntime) {
    are_operands(&rt, &WITHOUT_ADDRESS);
    are_no_operands(&rt, rt.alloc(), &NO_LITERALS);
}

static INDEXES: [(&str, u8); 3] = [
    ("tstl (r4)[r0]", 0),
    ("tstl (r4)[r2]", 2),
    ("tstl (r4)[r15]", 15),
];

static NO_INDEXES: [&str; 7] = [
    "(r4)[2]",
    "(r4)[]",
    "(r4)[r16]",
    "(r4)[r2",
    "(r4)r2]",
    "(r4)[(r2)]",
    "(r4)(r2)",
];

static REFUSED_INDEX: [(&str, &str); 1] = [("tstl (r4)[r15]", "operand refused")];

#[test]
fn an_index_is_a_register_in_brackets(rt: HostRuntime) {
    for (line, index) in INDEXES.iter() {
        let index = *index;
        let base = Place::Deferred(4);
        let wanted = Written::Indexed { index, base };
        assert_eq!(rt; operand_of(&rt, line), wanted, "{line}");
    }
    are_no_operands(&rt, rt.alloc(), &NO_INDEXES);
    are_refused(&rt, rt.alloc(), &REFUSED_INDEX);
}

static BASES: [(&str, Place); 7] = [
    ("tstl (r4)[r2]", Place::Deferred(4)),
    ("tstl -(r4)[r2]", Place::AutoDec(4)),
    ("tstl (r4)+[r2]", Place::AutoInc(4)),
    ("tstl *(r4)+[r2]", Place::AutoIncDef(4)),
    (
        "tstl *$0x404[r2]",
        Place::Absolute(Value::Number(plus!(0x404))),
    ),
    ("tstl b^4(r12)[r2]", displaced!(1, plus!(4), 12)),
    ("tstl *w^-8(r13)[r2]", displaced_deferred!(2, minus!(8), 13)),
];

static MISINDEXED: [(&str, Written); 3] = [
    ("tstl $5[r2]", Written::Misindexed { immediate: false }),
    ("tstl i^$5[r2]", Written::Misindexed { immediate: true }),
    ("tstl r4[r2]", Written::Misindexed { immediate: false }),
];

static TWICE_INDEXED: [&str; 5] = [
    "(r4)[r2][r3]",
    "r4[r2][r3]",
    "(r4)[r2]+",
    "[r2](r4)",
    "[r2]",
];

static REFUSED_BASES: [(&str, &str); 5] = [
    ("tstl $5[r2]", "operand refused"),
    ("tstl i^$5[r2]", "operand refused"),
    ("tstl -(r4)[r4]", "operand refused"),
    ("tstl (r4)+[r4]", "operand refused"),
    ("tstl *(r4)+[r4]", "operand refused"),
];

#[test]
fn one_index_may_stand_after_an_operand(rt: HostRuntime) {
    for (line, base) in BASES.iter() {
        let base = *base;
        let wanted = Written::Indexed { index: 2, base };
        assert_eq!(rt; operand_of(&rt, line), wanted, "{line}");
    }
    are_operands(&rt, &MISINDEXED);
    are_no_operands(&rt, rt.alloc(), &TWICE_INDEXED);
    are_refused(&rt, rt.alloc(), &REFUSED_BASES);
}

static TARGETS: [(&str, Written); 4] = [
    ("brb loop", Written::Target(Value::Label(LOOP))),
    (
        "brb r4",
        Written::Target(Value::Label(label!(b"r4\0\0\0\0\0\0\0\0\0\0\0\0\0\0"))),
    ),
    ("brw 0x400", Written::Target(Value::Number(plus!(0x400)))),
    ("bneq -2", Written::Target(Value::Number(minus!(2)))),
];

static NO_TARGETS: [&str; 5] = ["$4", "i^$loop", "*$loop", "loop[r2]", "."];

static ONLY_TARGETS: [&str; 2] = ["loop", "-2"];

#[test]
fn the_target_of_a_branch_is_a_value(rt: HostRuntime) {
    are_operands(&rt, &TARGETS);
    are_no_targets(&rt, rt.alloc(), &NO_TARGETS);
    are_only_targets(&rt, rt.alloc(), &ONLY_TARGETS);
}

const ONE: Written = Written::Register(1);

const TWO: Written = Written::Register(2);

const THREE: Written = Written::Register(3);

const TARGET: Written = Written::Target(Value::Label(LOOP));

static SENTENCES: [(&str, u8, [Written; 3]); 6] = [
    (
        "nop",
        0x01,
        [Written::Absent, Written::Absent, Written::Absent],
    ),
    ("incl r1", 0xD6, [ONE, Written::Absent, Written::Absent]),
    ("movl r1,r2", 0xD0, [ONE, TWO, Written::Absent]),
    ("addl3 r1,r2,r3", 0xC1, [ONE, TWO, THREE]),
    ("sobgtr r1,loop", 0xF5, [ONE, TARGET, Written::Absent]),
    ("aoblss r1,r2,loop", 0xF2, [ONE, TWO, TARGET]),
];

static NO_SENTENCES: [(&str, &str); 9] = [
    ("movl,r1,r2", "unknown mnemonic movl,r1,r2"),
    ("movl(r1),r2", "unknown mnemonic movl(r1),r2"),
    (
        "movl r1 r2",
        "a statement has one space, after its first word",
    ),
    ("movl r1;r2", "movl takes 2 operands, not 1"),
    ("movl ,r2", "an operand is missing beside a comma"),
    ("addl3 r1,,r3", "an operand is missing beside a comma"),
    ("incl ", "a space stands at the end of the line"),
    ("nop,", "unknown mnemonic nop,"),
    ("incl\tr1", "a tab stands in the line"),
];

// Checks the opcode of a sentence, and its operands.
fn is_sentence(rt: &impl Abort, line: &str, op: u8, operands: [Written; 3]) {
    let Some(sentence) = sentence_of(line.as_bytes()) else {
        panic!(rt; "{line}");
    };
    let said = [sentence.a, sentence.b, sentence.c];
    assert_eq!(rt; (sentence.row.op, said), (op, operands), "{line}");
}

#[test]
fn a_space_and_commas_stand_before_operands(rt: HostRuntime) {
    for (line, op, operands) in SENTENCES.iter() {
        is_sentence(&rt, line, *op, *operands);
    }
    are_outside(&rt, rt.alloc(), &NO_SENTENCES);
}

// The instructions of the table, each with operands that it takes, and their opcodes in the manual of the VAX.
static INSTRUCTIONS: [(&str, u8); 70] = [
    ("nop", 0x01),
    ("ret", 0x04),
    ("rsb", 0x05),
    ("bsbb 0", 0x10),
    ("brb 0", 0x11),
    ("bneq 0", 0x12),
    ("beql 0", 0x13),
    ("bgtr 0", 0x14),
    ("bleq 0", 0x15),
    ("jsb (r1)", 0x16),
    ("jmp (r1)", 0x17),
    ("bgeq 0", 0x18),
    ("blss 0", 0x19),
    ("bgtru 0", 0x1A),
    ("blequ 0", 0x1B),
    ("bvc 0", 0x1C),
    ("bvs 0", 0x1D),
    ("bcc 0", 0x1E),
    ("bcs 0", 0x1F),
    ("bsbw 0", 0x30),
    ("brw 0", 0x31),
    ("ashl r1,r2,r3", 0x78),
    ("movb r1,r2", 0x90),
    ("cmpb r1,r2", 0x91),
    ("clrb r1", 0x94),
    ("tstb r1", 0x95),
    ("incb r1", 0x96),
    ("decb r1", 0x97),
    ("cvtbl r1,r2", 0x98),
    ("movzbl r1,r2", 0x9A),
    ("movab (r1),r2", 0x9E),
    ("pushab (r1)", 0x9F),
    ("movw r1,r2", 0xB0),
    ("cmpw r1,r2", 0xB1),
    ("chmk r1", 0xBC),
    ("addl2 r1,r2", 0xC0),
    ("addl3 r1,r2,r3", 0xC1),
    ("subl2 r1,r2", 0xC2),
    ("subl3 r1,r2,r3", 0xC3),
    ("mull2 r1,r2", 0xC4),
    ("mull3 r1,r2,r3", 0xC5),
    ("divl2 r1,r2", 0xC6),
    ("divl3 r1,r2,r3", 0xC7),
    ("bisl2 r1,r2", 0xC8),
    ("bisl3 r1,r2,r3", 0xC9),
    ("bicl2 r1,r2", 0xCA),
    ("bicl3 r1,r2,r3", 0xCB),
    ("xorl2 r1,r2", 0xCC),
    ("xorl3 r1,r2,r3", 0xCD),
    ("mnegl r1,r2", 0xCE),
    ("movl r1,r2", 0xD0),
    ("cmpl r1,r2", 0xD1),
    ("mcoml r1,r2", 0xD2),
    ("bitl r1,r2", 0xD3),
    ("clrl r1", 0xD4),
    ("tstl r1", 0xD5),
    ("incl r1", 0xD6),
    ("decl r1", 0xD7),
    ("pushl r1", 0xDD),
    ("moval (r1),r2", 0xDE),
    ("pushal (r1)", 0xDF),
    ("blbs r1,0", 0xE8),
    ("blbc r1,0", 0xE9),
    ("aoblss r1,r2,0", 0xF2),
    ("aobleq r1,r2,0", 0xF3),
    ("sobgeq r1,0", 0xF4),
    ("sobgtr r1,0", 0xF5),
    ("cvtlb r1,r2", 0xF6),
    ("callg (r1),(r2)", 0xFA),
    ("calls r1,(r2)", 0xFB),
];

static NO_MNEMONICS: [(&str, &str); 6] = [
    ("no", "unknown mnemonic no"),
    ("nopp", "unknown mnemonic nopp"),
    ("mov r1,r2", "unknown mnemonic mov"),
    ("addl r1,r2", "unknown mnemonic addl"),
    ("addl4 r1,r2", "unknown mnemonic addl4"),
    ("movl2 r1,r2", "unknown mnemonic movl2"),
];

// Checks the opcode that an instruction's bytes begin with.
fn begins_with(rt: &impl Abort, line: &str, op: u8) {
    let Encoded::Is { bytes, .. } = encode(line.as_bytes(), 0) else {
        panic!(rt; "{line}");
    };
    assert_eq!(rt; bytes[0], op, "{line}");
}

#[test]
fn each_instruction_has_its_mnemonic(rt: HostRuntime) {
    assert_eq!(rt; rows().len(), INSTRUCTIONS.len());
    for (row, (line, op)) in rows().iter().zip(INSTRUCTIONS.iter()) {
        assert_eq!(rt; row.op, *op, "{line}");
        begins_with(&rt, line, *op);
    }
    are_outside(&rt, rt.alloc(), &NO_MNEMONICS);
}
