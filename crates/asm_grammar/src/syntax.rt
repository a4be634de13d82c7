//! What a source says, as types: numbers, labels, operands, instructions, lines. Nothing is known yet of addresses or
//! bytes.
ghost use Rattle.std.specs.Prelude.{◌≡◌};
ghost use Rattle.asm_grammar.specs.Values.{label_name};

use crate::values::split_word;
use vax_code::Row;

/// A number, as far as a range can hold it: a magnitude of 2^32 stands for each that is larger. Zero isn't negative.
#[derive(Clone, Copy, Debug, PartialEq, Eq)]
pub struct Number {
    pub negative: bool,
    pub magnitude: u64,
}

/// A label of 1 to 16 bytes, with zeros after it.
#[derive(Clone, Copy, Debug, PartialEq, Eq)]
pub struct Label {
    pub bytes: [u8; 16],
}

impl Label {
    /// Its bytes, without the zeros.
    pub fn name(&self) -> &[u8]
        ensures { result.now ≡ label_name self.now.bytes }
    {
        split_word(&self.bytes).0
    }
}

/// A number, or a label, which is its address.
#[derive(Clone, Copy, Debug, PartialEq, Eq)]
pub enum Value {
    Number(Number),
    Label(Label),
}

/// An operand that has an address.
#[derive(Clone, Copy, Debug, PartialEq, Eq)]
pub enum Place {
    /// `(rK)`
    Deferred(u8),
    /// `-(rK)`
    AutoDec(u8),
    /// `(rK)+`
    AutoInc(u8),
    /// `*(rK)+`
    AutoIncDef(u8),
    /// `*$X`
    Absolute(Value),
    /// `b^N(rK)`, `w^N(rK)` or `l^N(rK)`, of size 1, 2 or 4, with a `*` before it where it's deferred
    Disp {
        size: u8,
        reg: u8,
        by: Number,
        deferred: bool,
    },
}

/// An operand as it's written.
#[derive(Clone, Copy, Debug, PartialEq, Eq)]
pub enum Written {
    /// The instruction has no operand there.
    Absent,
    /// `$N`
    Literal(Number),
    /// `rK`
    Register(u8),
    /// `i^$X`
    Immediate(Value),
    Plain(Place),
    /// A place, and `[rK]` after it.
    Indexed { index: u8, base: Place },
    /// `[rK]` after a literal, a register or an immediate, which has no address to add to: no instruction takes it.
    Misindexed { immediate: bool },
    /// `X`, the target of a branch
    Target(Value),
}

/// An instruction as it's written.
#[derive(Clone, Copy, Debug, PartialEq, Eq)]
pub struct Sentence {
    pub row: Row,
    pub a: Written,
    pub b: Written,
    pub c: Written,
}

/// A label and its address.
#[derive(Clone, Copy, Debug, PartialEq, Eq)]
pub struct Definition {
    pub label: Label,
    pub address: u32,
}

/// What a line has after its label.
#[derive(Clone, Copy, Debug, PartialEq, Eq)]
pub enum Statement {
    Byte(Value),
    Word(Value),
    Long(Value),
    Space(Number),
    Bss(Number),
    Instruction(Sentence),
}

/// A line of a source.
#[derive(Clone, Copy, Debug, PartialEq, Eq)]
pub struct SourceLine {
    pub label: Option<Label>,
    pub statement: Option<Statement>,
}
