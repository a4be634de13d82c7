//! The law that a transcript is a trace of the same entries. There is no code here.
ghost use Rattle.std.specs.Prelude.{ℕ, List, map};
ghost use Rattle.vm_facts.specs.declared.entry.Entry.{Entry};
ghost use Rattle.paged_model.specs.declared.line.Line.TheVariants as lines;
ghost use Rattle.run_text.specs.Lines.{lines_in, AreLines};
ghost use Rattle.run_text.specs.Transcript.{IsEntryLine};
ghost use Rattle.repage_command.specs.Grammar.{IsTraceLine};

/// A transcript is a trace, of the same entries.
pub fn transcripts_are_traces()
    ensures { (bytes : List ℕ) (es : List Entry) → AreLines IsEntryLine es (lines_in bytes) → AreLines IsTraceLine (map lines.RunLine es) (lines_in bytes) }
{}
