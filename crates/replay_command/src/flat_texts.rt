//! What is written of a run reads back, and is judged to be one. There is no code here.
ghost use Rattle.std.specs.Prelude.{◌≡◌, ℕ, ◌≤◌, Bool, List};
ghost use Rattle.vm_facts.specs.declared.entry.Entry.{Entry};
ghost use Rattle.swap_book.specs.Holdings.{Holdings};
ghost use Rattle.flat_state.specs.Flat.{Inputs};
ghost use Rattle.flat_state.specs.Journal.{instructions_of};
ghost use Rattle.flat_model.specs.Run.{flat_run};
ghost use Rattle.run_model.specs.State.{State};
ghost use Rattle.run_model.specs.Lawful.{IsLawful};
ghost use Rattle.run_laws.specs.Running.{CanRun};
ghost use Rattle.run_text.specs.Transcript.{HaveNumbers, IsReadTranscript};
ghost use Rattle.run_text.specs.declared.answers.Transcript.{Transcript};
ghost use Rattle.replay_check.specs.Verdicts.{instruction_limit};
ghost use Rattle.replay_command.specs.Replayed.{entries_shown, IsTranscriptOf, IsAccepted, IsFlatText};

/// What a run writes, a judge of transcripts accepts: the text of a lawful journal, with the trace of the paging or without,
/// is read as the entries that it shows, and these are a run of the flat machine, of no more instructions than may be.
pub fn runs_are_replayed()
    ensures { (traced : Bool) (A : Inputs) (journal : List Entry) (s : State) (text : List ℕ) (read : Transcript)
        → IsTranscriptOf traced A journal s text → IsReadTranscript text read → IsAccepted A (entries_shown traced journal) read }
{}

/// The text of every lawful journal whose entries are at hand is that of a run of the flat machine, with the trace of the paging or
/// without, whatever stands after it. That counts are at least one is so of each unit of a run.
pub fn texts_are_flat()
    ensures { (A : Inputs) (hs : Holdings) (journal : List Entry) (s : State) (traced : Bool)
        → CanRun A hs → IsLawful A journal s → A.limit ≤ instruction_limit → HaveNumbers journal → IsFlatText A traced journal }
{}

/// The entries that are shown of a journal lead the flat machine to the same point, and count as many instructions.
pub fn shown_is_flat()
    ensures run { (traced : Bool) (A : Inputs) (journal : List Entry) → flat_run A (entries_shown traced journal) ≡ flat_run A journal }
    ensures count { (traced : Bool) (journal : List Entry) → instructions_of (entries_shown traced journal) ≡ instructions_of journal }
{}
