//! How few entries a stretch of the closing phase takes, which pages are written again, and that a run ends. There is
//! no code here.
ghost use Rattle.std.specs.Prelude.{◌≡◌, ℕ, ◌≤◌, List, length};
ghost use Rattle.swap_book.specs.Holdings.{Holdings};
ghost use Rattle.vm_facts.specs.declared.entry.Entry.{Entry};
ghost use Rattle.flat_state.specs.Flat.{Inputs};
ghost use Rattle.run_model.specs.State.{State, start};
ghost use Rattle.kernel_model.specs.Start.{ImagesFit};
ghost use Rattle.run_model.specs.Lawful.{Follows, Reaches, IsFinished};
ghost use Rattle.run_laws.specs.Running.{IsRun, CanRun};
ghost use Rattle.economy_laws.specs.Finishes.{Finishes};
ghost use Rattle.economy_laws.specs.Stretch.{turns_of, NoneCounts, ready_count};
ghost use Rattle.economy_laws.specs.Short.{WritesAreWorthIt, StretchAddsFew, StretchAddsFewer, StretchTakesFew};

/// No page is written to swap twice for nothing: between two writes of a data or stack page the user writes it, or it is
/// filled by `Zero`, `Copy` or the image; and between two writes of a text page its image's text pieces were given back.
pub fn writes_are_worth_it()
    ensures { WritesAreWorthIt }
{}

/// A stretch of the closing phase, from a turn or a counted instruction up to the next of either or to the end, has few
/// entries: at most 512, and 16 for each copy; and at most 33 fills with zeros and reads, and one read for each copy.
pub fn stretches_are_short()
    ensures entries { StretchAddsFew }
    ensures tight { StretchAddsFewer }
    ensures takings { StretchTakesFew }
{}

/// In the closing phase no more turns in a row count no instruction than there are processes that can step. There are
/// at most 64 processes after each unit, where there are no more at first.
pub fn idle_turns_are_few()
    ensures turns { (A : Inputs) (s t : State) (us : List Entry) → ImagesFit A.images → IsRun A s → length A.lines ≤ s.lines
        → Follows A s us t → NoneCounts us → turns_of us ≤ ready_count s.point.flat.processes }
    ensures crowd { (A : Inputs) (s t : State) (us : List Entry) → ImagesFit A.images → IsRun A s → length s.point.flat.processes ≤ 64
        → Follows A s us t → length t.point.flat.processes ≤ 64 }
    ensures most { (A : Inputs) (s : State) → ready_count s.point.flat.processes ≤ length s.point.flat.processes }
{}

/// A whole run ends. Inputs that can run, with 64 frames and up, have a finished run: next units lead from the start to a
/// state that has none, and so they do from each state that a run reaches. No list of next units from the start is longer
/// than some number, and there is no other finished run.
pub fn runs_finish()
    ensures finished { (A : Inputs) (hs : Holdings) → CanRun A hs → 64 ≤ A.frames → (journal : List Entry) × ((s : State) × IsFinished A journal s) }
    ensures reached { (A : Inputs) (hs : Holdings) (journal : List Entry) (s : State) → CanRun A hs → 64 ≤ A.frames → Reaches A journal s
        → Finishes A s }
    ensures bounded { (A : Inputs) (hs : Holdings) → CanRun A hs → 64 ≤ A.frames
        → (most : ℕ) × ((us : List Entry) (t : State) → Follows A (start A hs) us t → length us ≤ most) }
    ensures once { (A : Inputs) (journal other : List Entry) (s t : State) → IsFinished A journal s → IsFinished A other t
        → (journal ≡ other) × (s ≡ t) }
{}
