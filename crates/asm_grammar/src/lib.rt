//! What a text of the assembler says: `next_item` reads a line of a source, and `sentence_of` an instruction.
//!
//! The source is this project's profile. A line is empty, begins with `#`, or is an optional `LABEL:` and an optional
//! statement, with one space between them. Statements are `.byte X`, `.word X`, `.long X`, `.space N`, `.bss N` and the
//! instructions of the table of `vax_code`.
//!
//! The grammar is told as a relation too (specs/Grammar), and `sources_are_read_by_the_grammar`, a law, says that reading is this grammar.
#![tactic(auto)]

mod grammar;
mod lines;
mod mnemonics;
mod numbers;
mod operands;
mod ranges;
mod sentences;
mod syntax;
mod text;
mod values;

pub use grammar::sources_are_read_by_the_grammar;
pub use lines::{item_of, next_item, next_line};
pub use mnemonics::mnemonic;
pub use ranges::{half_of, whole_of};
pub use sentences::{is_short, sentence_of, separator};
pub use syntax::{
    Definition, Label, Number, Place, Sentence, SourceLine, Statement, Value, Written,
};
