//! Laws of fronts of paged runs, and of traces without parts. There is no code here.
ghost use Rattle.std.specs.Prelude.{◌≡◌, ◌↔◌, ℕ, ◌+◌, List, ◌++◌, length, map, None};
ghost use Rattle.vm_facts.specs.declared.entry.Entry.{Entry};
ghost use Rattle.flat_state.specs.Flat.{Inputs};
ghost use Rattle.flat_state.specs.Journal.{units_of};
ghost use Rattle.page_model.specs.Placement.{Placement};
ghost use Rattle.kernel_model.specs.declared.part.HandPart.{HandPart};
ghost use Rattle.kernel_model.specs.HandParts.{PartComes};
ghost use Rattle.run_model.specs.State.{State};
ghost use Rattle.paged_model.specs.declared.line.Line.{Line};
ghost use Rattle.paged_model.specs.declared.line.Line.TheVariants as lines;
ghost use Rattle.paged_model.specs.Runs.{paged_state, misstep_from, units_reason, IsPagedRun};
ghost use Rattle.paged_model.specs.Parts.{part_reason};
ghost use Rattle.paged_model.specs.Traces.{trace_state, trace_misstep, IsPagedTrace};

/// The first lines of a paged run are one; it goes on from the state to which they lead; and its lines may come where their units may.
pub fn runs_have_fronts()
    ensures front { (A : Inputs) (es fs : List Entry) → IsPagedRun A (es ++ fs) → IsPagedRun A es }
    ensures on { (A : Inputs) (s : State) (n : ℕ) (es fs : List Entry) → misstep_from A s n es ≡ None
        → misstep_from A s n (es ++ fs) ≡ misstep_from A (paged_state A s (units_of es)) (n + length es) fs }
    ensures units { (A : Inputs) (s : State) (n : ℕ) (es : List Entry) → misstep_from A s n es ≡ None → units_reason A s (units_of es) ≡ None }
{}

/// No reason is given against the line of a part of a move exactly where its conditions hold.
pub fn parts_come()
    ensures { (p : Placement) (x : HandPart) → (part_reason p x ≡ None) ↔ PartComes p x }
{}

/// A trace of entries alone is judged as these entries are.
pub fn entries_are_lines()
    ensures state { (A : Inputs) (s : State) (es : List Entry) → trace_state A s (map lines.RunLine es) ≡ paged_state A s (units_of es) }
    ensures misstep { (A : Inputs) (s : State) (n : ℕ) (es : List Entry) → trace_misstep A s n (map lines.RunLine es) ≡ misstep_from A s n es }
    ensures run { (A : Inputs) (es : List Entry) → IsPagedTrace A (map lines.RunLine es) ↔ IsPagedRun A es }
{}

/// The first lines of a trace that is a run are one, and it goes on from the state to which they lead.
pub fn traces_have_fronts()
    ensures front { (A : Inputs) (ls ms : List Line) → IsPagedTrace A (ls ++ ms) → IsPagedTrace A ls }
    ensures on { (A : Inputs) (s : State) (n : ℕ) (ls ms : List Line) → trace_misstep A s n ls ≡ None
        → trace_misstep A s n (ls ++ ms) ≡ trace_misstep A (trace_state A s ls) (n + length ls) ms }
{}
