//! The text of an instruction, which the assembler reads back.
ghost use Rattle.std.specs.Prelude.{◌≡◌, ◌<◌, ◌≤◌, ◌+◌, ◌++◌, length};
ghost use Rattle.vax_disasm.specs.Showing.{sign_text, number_text, value_text, register_number_text, register_text, parenthesised_text, star_text, mark_of_size, displacement_text, place_text, written_text, row_place_text, sentence_text};

use crate::line::Line;
use asm_grammar::{Number, Place, Sentence, Value, Written, mnemonic, separator};
use vax_code::Row;

#[tactic(auto, unfolding(crate::specs::Showing::number_text))]
fn push_number(line: &mut Line, number: Number)
    requires { length line.old + 11 ≤ 120 }
    ensures text { line.new ≡ line.old ++ number_text number }
    ensures few { length line.new ≤ length line.old + 11 }
{
    if number.negative {
        line.push(b'-');
    }
    line.push_all(b"0x");
    line.push_hexadecimal(8, number.magnitude);
}

#[tactic(auto, unfolding(crate::specs::Showing::value_text))]
fn push_value(line: &mut Line, value: Value)
    requires { length line.old + 11 ≤ 120 }
    ensures text { line.new ≡ line.old ++ value_text value }
    ensures few { length line.new ≤ length line.old + 11 }
{
    match value {
        Value::Number(number) => push_number(line, number),
        Value::Label(_) => {}
    }
}

#[tactic(auto, unfolding(crate::specs::Showing::register_text))]
fn push_register(line: &mut Line, reg: u8)
    requires { length line.old + 3 ≤ 120 }
    ensures text { line.new ≡ line.old ++ register_text reg }
    ensures few { length line.new ≤ length line.old + 3 }
{
    line.push(b'r');
    if reg < 10 {
        line.push(b'0' + reg);
    } else {
        line.push(b'0' + reg / 10);
        line.push(b'0' + reg % 10);
    }
}

#[tactic(auto, unfolding(crate::specs::Showing::parenthesised_text))]
fn push_parenthesised(line: &mut Line, reg: u8)
    requires { length line.old + 5 ≤ 120 }
    ensures text { line.new ≡ line.old ++ parenthesised_text reg }
    ensures few { length line.new ≤ length line.old + 5 }
{
    line.push(b'(');
    push_register(line, reg);
    line.push(b')');
}

fn mark_of_size(size: u8) -> u8
    ensures { result ≡ mark_of_size size }
{
    match size {
        1 => b'b',
        2 => b'w',
        _ => b'l',
    }
}

#[tactic(auto, unfolding(crate::specs::Showing::displacement_text))]
fn push_displacement(line: &mut Line, size: u8, reg: u8, by: Number)
    requires { length line.old + 18 ≤ 120 }
    ensures text { line.new ≡ line.old ++ displacement_text size reg by }
    ensures few { length line.new ≤ length line.old + 18 }
{
    line.push(mark_of_size(size));
    line.push(b'^');
    push_number(line, by);
    push_parenthesised(line, reg);
}

#[tactic(auto, unfolding(crate::specs::Showing::place_text))]
fn push_place(line: &mut Line, place: Place)
    requires { length line.old + 19 ≤ 120 }
    ensures text { line.new ≡ line.old ++ place_text place }
    ensures few { length line.new ≤ length line.old + 19 }
{
    match place {
        Place::Deferred(reg) => push_parenthesised(line, reg),
        Place::AutoDec(reg) => {
            line.push(b'-');
            push_parenthesised(line, reg);
        }
        Place::AutoInc(reg) => {
            push_parenthesised(line, reg);
            line.push(b'+');
        }
        Place::AutoIncDef(reg) => {
            line.push(b'*');
            push_parenthesised(line, reg);
            line.push(b'+');
        }
        Place::Absolute(address) => {
            line.push_all(b"*$");
            push_value(line, address);
        }
        Place::Disp {
            size,
            reg,
            by,
            deferred,
        } => {
            if deferred {
                line.push(b'*');
            }
            push_displacement(line, size, reg, by);
        }
    }
}

#[tactic(auto, unfolding(crate::specs::Showing::written_text))]
fn push_written(line: &mut Line, written: Written)
    requires { length line.old + 24 ≤ 120 }
    ensures text { line.new ≡ line.old ++ written_text written }
    ensures few { length line.new ≤ length line.old + 24 }
{
    match written {
        Written::Absent | Written::Misindexed { .. } => {}
        Written::Literal(number) => {
            line.push(b'$');
            push_number(line, number);
        }
        Written::Register(reg) => push_register(line, reg),
        Written::Immediate(value) => {
            line.push_all(b"i^$");
            push_value(line, value);
        }
        Written::Plain(place) => push_place(line, place),
        Written::Indexed { index, base } => {
            push_place(line, base);
            line.push(b'[');
            push_register(line, index);
            line.push(b']');
        }
        Written::Target(target) => push_value(line, target),
    }
}

// The operand in one of the places of the row.
#[tactic(auto, unfolding(crate::specs::Showing::row_place_text))]
fn push_row_place(line: &mut Line, row: &Row, place: u8, written: Written)
    requires { length line.old + 25 ≤ 120 }
    ensures text { line.new ≡ line.old ++ row_place_text row.now place written }
    ensures few { length line.new ≤ length line.old + 25 }
{
    if place < row.count {
        line.push(separator(place));
        push_written(line, written);
    }
}

// The text of an instruction.
#[tactic(auto, unfolding(crate::specs::Showing::sentence_text))]
pub fn text_of(sentence: &Sentence) -> Line
    ensures { result ≡ sentence_text sentence.now }
{
    let mut line = Line::new();
    let row = sentence.row;
    line.push_all(mnemonic(row.name));
    push_row_place(&mut line, &row, 0, sentence.a);
    push_row_place(&mut line, &row, 1, sentence.b);
    push_row_place(&mut line, &row, 2, sentence.c);
    line
}
