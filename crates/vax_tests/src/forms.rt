//! What the tests of the forms of a source ask: what a line says, and what `vmrun as` tells of one that it doesn't
//! take.
use asm_grammar::{Label, Number, Place, SourceLine, Statement, Value, Written, item_of};
use io_edge::MemFiles;
use source_commands::explain_source;
use std::alloc::Global;
use std::process::Abort;
use vax_asm::{Assembled, assemble};

// A number that isn't negative.
macro_rules! plus {
    ($magnitude:expr) => {
        Number {
            negative: false,
            magnitude: $magnitude,
        }
    };
}

// A number below zero.
macro_rules! minus {
    ($magnitude:expr) => {
        Number {
            negative: true,
            magnitude: $magnitude,
        }
    };
}

// The label of this name, with zeros behind it.
macro_rules! label {
    ($bytes:expr) => {
        Label { bytes: *$bytes }
    };
}

pub(crate) use label;
pub(crate) use minus;
pub(crate) use plus;

pub const LOOP: Label = label!(b"loop\0\0\0\0\0\0\0\0\0\0\0\0");

// What a line of this text says.
pub fn said_by(text: &str) -> Option<SourceLine> {
    item_of(Some(text.as_bytes()))
}

// What the statement of a line says.
pub fn statement_of(rt: &impl Abort, text: &str) -> Statement {
    let said = said_by(text);
    let Some(
        SourceLine {
            statement: Some(statement),
            ..
        },
    ) = said
    else {
        panic!(rt; "{text}: {said:?}");
    };
    statement
}

// What a `.long` says.
pub fn value_of(rt: &impl Abort, text: &str) -> Value {
    let said = statement_of(rt, text);
    let Statement::Long(value) = said else {
        panic!(rt; "{text}: {said:?}");
    };
    value
}

// What an instruction says in its first place.
pub fn operand_of(rt: &impl Abort, text: &str) -> Written {
    let said = statement_of(rt, text);
    let Statement::Instruction(sentence) = said else {
        panic!(rt; "{text}: {said:?}");
    };
    sentence.a
}

// Each of these lines says what stands beside it.
pub fn are_lines(rt: &impl Abort, rows: &[(&str, SourceLine)]) {
    for (line, wanted) in rows.iter() {
        assert_eq!(rt; said_by(line), Some(*wanted), "{line}");
    }
}

// Each of these lines has the statement beside it.
pub fn are_statements(rt: &impl Abort, rows: &[(&str, Statement)]) {
    for (line, statement) in rows.iter() {
        assert_eq!(rt; statement_of(rt, line), *statement, "{line}");
    }
}

// Each of these `.long`s says the value beside it.
pub fn are_values(rt: &impl Abort, rows: &[(&str, Value)]) {
    for (line, value) in rows.iter() {
        assert_eq!(rt; value_of(rt, line), *value, "{line}");
    }
}

// Each of these `.long`s says the number beside it.
pub fn are_numbers(rt: &impl Abort, rows: &[(&str, Number)]) {
    for (line, number) in rows.iter() {
        assert_eq!(rt; value_of(rt, line), Value::Number(*number), "{line}");
    }
}

// Each of these instructions says the operand beside it in its first place.
pub fn are_operands(rt: &impl Abort, rows: &[(&str, Written)]) {
    for (line, written) in rows.iter() {
        assert_eq!(rt; operand_of(rt, line), *written, "{line}");
    }
}

// Each of these instructions says the place beside it in its first place.
pub fn are_places(rt: &impl Abort, rows: &[(&str, Place)]) {
    for (line, place) in rows.iter() {
        assert_eq!(rt; operand_of(rt, line), Written::Plain(*place), "{line}");
    }
}

// What is told of a source that is this text.
pub fn told(rt: &impl Abort, alloc: Global, source: &str) -> Vec<u8> {
    let name = "source".to_string(alloc).expect(rt, "memory for a name");
    let bytes = Vec::from_slice(alloc, source.as_bytes()).expect(rt, "memory for a source");
    let mut held = Vec::with_capacity(alloc, 1).expect(rt, "memory for a file");
    held.push_reserved((name, bytes));
    let mut files = MemFiles::new(held, Vec::new(alloc));
    let Ok(Some(told)) = explain_source(alloc, &mut files, "source") else {
        panic!(rt; "nothing told");
    };
    told
}

// What is told of line 1; `None` where it isn't told of that line, or doesn't end.
fn reason_in(told: &[u8]) -> Option<&[u8]> {
    told.strip_prefix(b"vmrun: line 1: ".as_slice())?
        .strip_suffix(b"\n".as_slice())
}

// This is told of a source that is this one line.
pub fn tells(rt: &impl Abort, alloc: Global, line: &str, reason: &str) {
    let mut source = line.to_string(alloc).expect(rt, "memory for a source");
    source.push('\n').expect(rt, "memory for a source");
    let told = told(rt, alloc, source.as_str());
    assert_eq!(rt;
        reason_in(told.as_slice()),
        Some(reason.as_bytes()),
        "{line}"
    );
}

// This line says nothing, and this is told of it.
fn is_outside(rt: &impl Abort, alloc: Global, line: &str, reason: &str) {
    assert_eq!(rt; said_by(line), None, "{line}");
    tells(rt, alloc, line, reason);
}

// Each of these lines says nothing, and this is told of it.
pub fn are_outside(rt: &impl Abort, alloc: Global, misses: &[(&str, &str)]) {
    for (line, reason) in misses.iter() {
        is_outside(rt, alloc, line, reason);
    }
}

// The text between these two.
fn between(rt: &impl Abort, alloc: Global, front: &str, text: &str, end: &str) -> String {
    let mut line = front.to_string(alloc).expect(rt, "memory for a line");
    line.push_str(text).expect(rt, "memory for a line");
    line.push_str(end).expect(rt, "memory for a line");
    line
}

// None of these texts is a number or a label.
pub fn are_no_values(rt: &impl Abort, alloc: Global, texts: &[&str]) {
    for text in texts.iter() {
        let line = between(rt, alloc, ".long ", text, "");
        is_outside(rt, alloc, line.as_str(), ".long takes one number or label");
    }
}

// None of these texts makes a line between these two, and of each it is told what it isn't.
fn are_misses(rt: &impl Abort, alloc: Global, front: &str, end: &str, what: &str, texts: &[&str]) {
    for text in texts.iter() {
        let line = between(rt, alloc, front, text, end);
        let reason = between(rt, alloc, "", text, what);
        is_outside(rt, alloc, line.as_str(), reason.as_str());
    }
}

// None of these texts is a label.
pub fn are_no_labels(rt: &impl Abort, alloc: Global, texts: &[&str]) {
    let what = " is no label: 1 to 16 of a to z, _ and digits, no digit first";
    are_misses(rt, alloc, "", ":", what, texts);
}

// None of these texts is an operand, nor the target of a branch.
pub fn are_no_operands(rt: &impl Abort, alloc: Global, texts: &[&str]) {
    are_misses(rt, alloc, "tstl ", "", " is no operand", texts);
}

// None of these texts is an operand that has a specifier; each is the target of a branch.
pub fn are_only_targets(rt: &impl Abort, alloc: Global, texts: &[&str]) {
    let what =
        " is the target of a branch: write i^$ before it for the value, *$ for what is there";
    are_misses(rt, alloc, "tstl ", "", what, texts);
}

// None of these texts is the target of a branch.
pub fn are_no_targets(rt: &impl Abort, alloc: Global, texts: &[&str]) {
    let what = " is no target of a branch: a label or a number";
    are_misses(rt, alloc, "brb ", "", what, texts);
}

// Each of these lines says something, and is bad all the same.
pub fn are_refused(rt: &impl Abort, alloc: Global, lines: &[(&str, &str)]) {
    for (line, reason) in lines.iter() {
        assert!(rt; said_by(line).is_some(), "{line}");
        tells(rt, alloc, line, reason);
    }
}

// Checks the bytes that a source gives, and its `.bss`.
pub fn gives(rt: &impl Abort, alloc: Global, source: &[u8], bytes: &[u8], bss: u32) {
    let Ok(Assembled::Is(program)) = assemble(alloc, source) else {
        panic!(rt; "{source:?}");
    };
    assert_eq!(rt; (program.bytes.as_slice(), program.bss), (bytes, bss));
}
