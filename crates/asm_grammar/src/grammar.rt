//! The law that what is read here of a source is its grammar, told as a relation. There is no code here.
ghost use Rattle.std.specs.Prelude.{◌≡◌, ◌↔◌, List, ℕ, Option, Some};
ghost use Rattle.asm_grammar.specs.Sentences.{sentence_of};
ghost use Rattle.asm_grammar.specs.Lines.{line_of, items_in};
ghost use Rattle.asm_grammar.specs.declared.syntax.Sentence.{Sentence};
ghost use Rattle.asm_grammar.specs.declared.syntax.SourceLine.{SourceLine};
ghost use Rattle.asm_grammar.specs.Grammar.{IsInstructionText, IsLine, SaysLines};

/// Reading is the grammar: a text is read as an instruction, or as a line, exactly where it is one of the grammar that says so, and what is
/// read of the lines of a source is exactly what they say. So a text says one thing at most.
pub fn sources_are_read_by_the_grammar()
    ensures instruction { (text : List ℕ) (sentence : Sentence) → (sentence_of text ≡ Some sentence) ↔ IsInstructionText text sentence }
    ensures line { (text : List ℕ) (line : SourceLine) → (line_of text ≡ Some line) ↔ IsLine text line }
    ensures source { (source : List ℕ) (items : List (Option SourceLine)) → (items_in source ≡ items) ↔ SaysLines source items }
{}
