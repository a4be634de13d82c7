//! Laws, one for each kind of unit, that what a machine made comes next in a run. There is no code here.
ghost use Rattle.std.specs.Prelude.{◌≡◌, ℕ, List, ◌++◌, Option, Some};
ghost use Rattle.vm_facts.specs.SwapImages.{SwapImage};
ghost use Rattle.vm_facts.specs.declared.entry.Entry.{Entry};
ghost use Rattle.flat_state.specs.Flat.{Inputs};
ghost use Rattle.kernel_model.specs.Kernel.{Kernel};
ghost use Rattle.fault_fill.specs.Sourced.{files_named};
ghost use Rattle.run_model.specs.State.{State};
ghost use Rattle.fault_fill.specs.Made.{Ground, MadeBy, ImageBy};
ghost use Rattle.run_units.specs.Leads.{HasImages, KeepsLocked, MadeAs, Leads};
ghost use Rattle.run_units.specs.Acting.{StepBegins, StepIsRefused, RefusedStepComes, ReplyComes};
ghost use Rattle.run_units.specs.Filling.{ForcingIsNext, ForcedNext, FillIsNext, BringingIsNext, BroughtNext};
ghost use Rattle.run_units.specs.Swapping.{PuttingIsNext, PutNext, OutIsMade, InIsMade, NoteIsMade, LineAsks, LineComes, TurnComes};
ghost use Rattle.run_units.specs.Touching.{MissIsWanted, NoMissIsReady, CallsWriteNothing, CallMissIsWanted, CallIsReady};
ghost use Rattle.run_units.specs.Stepping.{ActIsNext, StepIsMade, RanIsMade, PlainStepIsMade, ReturningStepIsMade, LendingStepIsMade, StepIsKnown, CallIsKnown, RecordHasRegisters, NoneAskedIsFound, HeadersAgree, GrowthCounts, GrowthIsMade};
ghost use Rattle.run_units.specs.Moving.{MovingIsNext, MoveNext, MovesEnd};
ghost use Rattle.run_units.specs.Settling.{SettlingIsNext, SettledNext};
ghost use Rattle.run_units.specs.Serving.{At, ServingIsNext, ServedNext};

/// A unit of paging that a machine made, over the images of a run and with hands that pass over the pages that the run keeps,
/// is the same unit of the run: with what was read, which is what the files and the swap image hold. Parts follow one another,
/// and a machine that stood at a state of the run stands at the one to which its units lead.
pub fn units_are_next()
    ensures one { (A : Inputs) (g : Ground) (s : State) (k l : Kernel) (image : SwapImage) (j : Option SwapImage) (u : Entry)
        → HasImages g A → KeepsLocked g A s u → MadeBy g u k (Some image) l → ImageBy (files_named g.from.images) u k (Some image) j → MadeAs A s k image u l
        j }
    ensures parts { (A : Inputs) (s t r : State) (k l m : Kernel) (image : SwapImage) (i j : Option SwapImage) (us vs : List Entry)
        → Leads A s k image us t l i → ((between : SwapImage) → i ≡ Some between → Leads A t l between vs r m j)
        → Leads A s k image (us ++ vs) r m j }
    ensures stands { (A : Inputs) (s t : State) (k l : Kernel) (image behind : SwapImage) (us : List Entry)
        → At A s k image → Leads A s k image us t l (Some behind) → At A t l behind }
{}

/// While a process runs and waits for a page that its next instruction touches, each unit that serves the page is the next
/// unit of the run: in a turn, where frames are forced by hands that pass over the pages before it, and in a dispatch, where
/// serving goes only as far as that needs no waiting.
pub fn serving_is_next()
    ensures units { ServingIsNext }
    ensures next { ServedNext }
{}

/// While a page is due, each unit that forces a frame for the one that is due first is the next unit of the run, and where a
/// frame is free the fill itself: with zeros for a new stack page, with its parent's bytes for a child's page. Before that
/// each unit that serves the parent's page is the next one.
pub fn filling_is_next()
    ensures forces { ForcingIsNext }
    ensures forced { ForcedNext }
    ensures fills { FillIsNext }
    ensures brings { BringingIsNext }
    ensures brought { BroughtNext }
{}

/// A process whose step gives up its space, or drops pages of it, waits until no transfer names a page of it: each transfer
/// that ends meanwhile is the next unit of the run.
pub fn settling_is_next()
    ensures units { SettlingIsNext }
    ensures next { SettledNext }
{}

/// An instruction over the frames of a machine says which page its process waits for: the first byte that misses is of the
/// first page that it touches and that isn't valid. Where none misses, and the instruction makes none of the eight calls, the
/// process waits for no page, and the instruction comes to what it comes to over the flat memory. One that makes a call writes
/// nothing itself; so of the bytes that the call reads the same is so.
pub fn accesses_tell_pages()
    ensures misses { MissIsWanted }
    ensures hits { NoMissIsReady }
    ensures calls { CallsWriteNothing }
    ensures calls_miss { CallMissIsWanted }
    ensures calls_hit { CallIsReady }
{}

/// What a process does, once it waits for no page, is the next unit of the run. A machine makes it: an entry of the process with
/// the change of its step, once the pieces that the change asks for were found; and an instruction whose bytes were written and
/// which was counted. The step is the one that its instruction and its call come to over the frames of the machine, with the
/// registers of the record.
pub fn steps_are_made()
    ensures acts { ActIsNext }
    ensures steps { StepIsMade }
    ensures plain { PlainStepIsMade }
    ensures returning { ReturningStepIsMade }
    ensures lending { LendingStepIsMade }
    ensures ran { RanIsMade }
    ensures known { StepIsKnown }
    ensures called { CallIsKnown }
    ensures registers { RecordHasRegisters }
    ensures none_asked { NoneAskedIsFound }
    ensures headers { HeadersAgree }
    ensures counts { GrowthCounts }
    ensures growth { GrowthIsMade }
{}

/// What a process does next follows from its step: its first entry, once its pieces find their places and no space has to settle;
/// the entry that says so, where they find none, and after that the step of who was refused; and after bytes that went out the
/// reply.
pub fn steps_come()
    ensures begins { StepBegins }
    ensures refused { StepIsRefused }
    ensures behind_refusal { RefusedStepComes }
    ensures behind_output { ReplyComes }
{}

/// Under a line that asks for moves of the hands each move, and each transfer that ends before one, is the next unit of the run,
/// and the line is over where as many were made as it asks for, or a quarter of the frames are free.
pub fn moving_is_next()
    ensures units { MovingIsNext }
    ensures next { MoveNext }
    ensures ends { MovesEnd }
{}

/// Under a line by which the swapper puts a process out each unit that does so is the next unit of the run, and the last is the one
/// by which it goes out, with its registers in its u page. One that comes in has the registers that its u page holds.
pub fn swapping_is_next()
    ensures units { PuttingIsNext }
    ensures next { PutNext }
    ensures out { OutIsMade }
    ensures comes { InIsMade }
{}

/// What a line asks for first comes next, and once the last mark is over the next line, or after the last line a turn. Entries
/// that go into the journal alone are units of the run.
pub fn marks_come()
    ensures asks { LineAsks }
    ensures lines { LineComes }
    ensures turns { TurnComes }
    ensures notes { NoteIsMade }
{}
