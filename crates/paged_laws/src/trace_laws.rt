//! The same laws of traces with lines of parts of moves. There is no code here.
ghost use Rattle.std.specs.Prelude.{◌≡◌, ◌≤◌, ℕ, List, map, Some, None};
ghost use Rattle.vm_facts.specs.declared.entry.Entry.TheVariants as entries;
ghost use Rattle.swap_book.specs.Holdings.{Holdings};
ghost use Rattle.flat_state.specs.Flat.{Inputs};
ghost use Rattle.flat_state.specs.Journal.{instructions_of};
ghost use Rattle.flat_model.specs.Run.{Point, flat_run};
ghost use Rattle.kernel_model.specs.Kernel.{Kernel};
ghost use Rattle.kernel_model.specs.Start.{ImagesFit};
ghost use Rattle.kernel_model.specs.declared.part.HandPart.{HandPart};
ghost use Rattle.kernel_model.specs.HandParts.{part_step};
ghost use Rattle.run_model.specs.State.{State, start};
ghost use Rattle.run_laws.specs.Machine.{StandsAt};
ghost use Rattle.run_laws.specs.Running.{CanRun};
ghost use Rattle.paged_model.specs.declared.line.Line.{Line};
ghost use Rattle.paged_model.specs.declared.line.Line.TheVariants as lines;
ghost use Rattle.paged_model.specs.Runs.{line_reason, line_after};
ghost use Rattle.paged_model.specs.Traces.{trace_line_reason, trace_line_after, entries_in, trace_state, trace_misstep, first_trace_misstep, IsPagedTrace, moves_parts, with_hands};
ghost use Rattle.paged_laws.specs.Led.{PlacedAt, OwnedAt};
ghost use Rattle.paged_laws.specs.Paged.{IsPaged};

/// What programs can see of a trace with lines of parts of moves, by any policy, is a run of the flat machine: the one of the trace's entries.
pub fn traces_are_flat()
    ensures flat { (A : Inputs) (ls : List Line) → IsPagedTrace A ls → (point : Point) × (flat_run A (entries_in ls) ≡ Some point) }
    ensures few { (A : Inputs) (ls : List Line) → IsPagedTrace A ls → instructions_of (entries_in ls) ≤ A.limit }
{}

/// After each line of such a trace each frame and each block of swap has one owner or is free, at most 16 transfers are in flight, the hands are
/// a quarter apart, what is due waits to be filled, and the spaces and the holdings are those of the flat state.
pub fn traces_are_owned()
    ensures stands { (A : Inputs) (hs : Holdings) (ls : List Line) → CanRun A hs → first_trace_misstep A hs ls ≡ None
        → PlacedAt A (trace_state A (start A hs) ls) }
    ensures owner { (A : Inputs) (hs : Holdings) (ls : List Line) → CanRun A hs → first_trace_misstep A hs ls ≡ None
        → OwnedAt A (trace_state A (start A hs) ls) }
{}

/// All stands after each line that may come. A machine that stands at a state, coupled to the flat state, stands at the next one after the step
/// of a part.
pub fn traced_machines_stand()
    ensures line { (A : Inputs) (s : State) (l : Line) → ImagesFit A.images → IsPaged A s → trace_line_reason A s l ≡ None
        → IsPaged A (trace_line_after A s l) }
    ensures machine { (A : Inputs) (s : State) (k : Kernel) (image : List ℕ) (x : HandPart) → StandsAt A s k image
        → trace_line_reason A s (lines.Part x) ≡ None → StandsAt A (trace_line_after A s (lines.Part x)) (part_step k x) image }
{}

/// A line of moves of the hands that may come may be told by the lines of their parts, each of which may come then. They lead to the same
/// state, but that the hands stay where they are, and no entry is made.
pub fn moves_are_told_by_parts()
    ensures good { (A : Inputs) (s : State) (n k : ℕ) → ImagesFit A.images → IsPaged A s → line_reason A s (entries.Hands n) ≡ None
        → trace_misstep A s k (map lines.Part (moves_parts A s n)) ≡ None }
    ensures place { (A : Inputs) (s : State) (n : ℕ) → ImagesFit A.images → IsPaged A s → line_reason A s (entries.Hands n) ≡ None
        → trace_state A s (map lines.Part (moves_parts A s n)) ≡ record s { place = with_hands s.place (line_after A s (entries.Hands n)).place } }
{}
