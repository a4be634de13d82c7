//! Laws of a machine with its bytes along a run, from its start. There is no code here.
ghost use Rattle.std.specs.Prelude.{◌≡◌, ℕ, ◌+◌, ◌^◌, ◌<◌, Bool, true, List, length, map, Some};
ghost use Rattle.vm_facts.specs.declared.page.Page.{Page};
ghost use Rattle.vm_facts.specs.declared.entry.Entry.{Entry};
ghost use Rattle.vm_facts.specs.declared.entry.Entry.TheVariants as entries;
ghost use Rattle.swap_book.specs.Holdings.{Holdings};
ghost use Rattle.flat_state.specs.Flat.{Inputs, start_state, FlatState, process_of};
ghost use Rattle.flat_model.specs.Step.{flat_step};
ghost use Rattle.flat_model.specs.Run.{Point, flat_run};
ghost use Rattle.flat_laws.specs.Longwords.{ProcessesFit, AllImages};
ghost use Rattle.run_laws.specs.Files.{AreInputs, MayBegin};
ghost use Rattle.page_model.specs.Place.{space_of_process};
ghost use Rattle.page_model.specs.PuttingOut.{IsResident, EndsPuttingOut};
ghost use Rattle.run_model.specs.declared.mark.Mark.TheVariants as marks;
ghost use Rattle.run_laws.specs.Sized.{FlatSized, InputsSized, PlaceSized};
ghost use Rattle.run_model.specs.Lawful.{Reaches, Follows};
ghost use Rattle.kernel_model.specs.Kernel.{Kernel, plain_step, zero_step, copy_step, get_step, reclaim_step, push_step, note_step};
ghost use Rattle.kernel_model.specs.Sound.{lives};
ghost use Rattle.kernel_model.specs.Start.{ImagesFit, kept_of};
ghost use Rattle.run_model.specs.State.{State, start};
ghost use Rattle.run_model.specs.Wanted.{locked};
ghost use Rattle.run_model.specs.After.{after};
ghost use Rattle.run_laws.specs.Running.{IsRun, CanRun};
ghost use Rattle.run_laws.specs.Machine.{process_step, ran_step, unit_step, unit_image, IsGiven, StandsAt, Makes, IsJournalEntry, Completes, Next};
ghost use Rattle.run_laws.specs.Images.{AllFlat, HasSwapped};
ghost use Rattle.run_model.specs.Swapped.{image_behind, swapped_from};
ghost use Rattle.run_laws.specs.Bytes.{StartStands, UnitStands, DoneStands, LeavingFillsUPage, ComingReadsUPage, WrittenIsCoupled, TakenIsCoupled};
ghost use Rattle.run_laws.specs.Agreeing.{JournalSaysImage, RunHasSwapped, PuttingOutFalls, ReadsAreFlat};

/// A machine with its bytes along a whole run. At the start it stands at the run's start, whatever its frames hold and
/// whatever is in the swap image; after each next unit it stands at the next state, with that state's placement,
/// holdings and journal, with one owner of each frame and block, and coupled to the flat state; and so after each
/// list of next units. No unit stops it.
pub fn machines_stand()
    ensures start { StartStands }
    ensures unit { UnitStands }
    ensures units { (A : Inputs) (us : List Entry) (s t : State) (k l : Kernel) (image behind : List ℕ) → ImagesFit A.images → IsRun A s
        → StandsAt A s k image → Makes A s k image us t l behind → StandsAt A t l behind }
    ensures follows { (A : Inputs) (us : List Entry) (s t : State) (k l : Kernel) (image behind : List ℕ) → Makes A s k image us t l behind
        → Follows A s us t }
    ensures goes { (A : Inputs) (s : State) (k : Kernel) (image : List ℕ) (read : List (List ℕ)) (u : Entry)
        → (unit_step A s k image read u).stopped ≡ k.stopped }
{}

/// The same of each kind of unit by itself: a fill, with zeros, with the start of a stack, or with a parent's page; the
/// beginning of a read; a reclaim; a move of the hands; the beginning of a write; the end of a transfer, with what was
/// read; a process that goes out or comes in; an entry that only goes into the journal; an instruction that ran; and an
/// entry that completes a process's step with a change. In the middle of such a step the machine is coupled to the flat
/// state with the bytes that it writes, before its pieces are found and once they are.
pub fn machine_units()
    ensures zero { (A : Inputs) (s : State) (k : Kernel) (image : List ℕ) (q : Page) → Next A s k image (entries.Zero q)
        → StandsAt A (after A s (entries.Zero q)) (zero_step k q) image }
    ensures copy { (A : Inputs) (s : State) (k : Kernel) (image : List ℕ) (q : Page) → Next A s k image (entries.Copy q)
        → StandsAt A (after A s (entries.Copy q)) (copy_step k q) image }
    ensures get { (A : Inputs) (s : State) (k : Kernel) (image : List ℕ) (q : Page) (lo n : ℕ) → Next A s k image (entries.Get q lo n)
        → StandsAt A (after A s (entries.Get q lo n)) (get_step k q lo n) image }
    ensures reclaim { (A : Inputs) (s : State) (k : Kernel) (image : List ℕ) (q : Page) → Next A s k image (entries.Reclaim q)
        → StandsAt A (after A s (entries.Reclaim q)) (reclaim_step k q) image }
    ensures hands { (A : Inputs) (s : State) (k : Kernel) (image : List ℕ) (n : ℕ) → Next A s k image (entries.Hands n)
        → StandsAt A (after A s (entries.Hands n)) (plain_step k (locked A s) (entries.Hands n)) image }
    ensures put { (A : Inputs) (s : State) (k : Kernel) (image : List ℕ) (q : Page) (n : ℕ) → Next A s k image (entries.Put q n)
        → StandsAt A (after A s (entries.Put q n)) (push_step k q n) image }
    ensures done { DoneStands }
    ensures out { LeavingFillsUPage }
    ensures comes { ComingReadsUPage }
    ensures note { (A : Inputs) (s : State) (k : Kernel) (image : List ℕ) (u : Entry) → Next A s k image u → IsJournalEntry u
        → StandsAt A (after A s u) (note_step k u) image }
    ensures ran { (A : Inputs) (s : State) (k : Kernel) (image : List ℕ) (pid n : ℕ) → Next A s k image (entries.Ran pid n)
        → StandsAt A (after A s (entries.Ran pid n)) (ran_step A s k pid n) image }
    ensures step { (A : Inputs) (s : State) (k : Kernel) (image : List ℕ) (pid : ℕ) (u : Entry) → Next A s k image u → Completes pid u
        → StandsAt A (after A s u) (process_step A s k pid u) image }
    ensures written { WrittenIsCoupled }
    ensures taken { TakenIsCoupled }
{}

/// The swap image of a machine along a run is the one that the run's units say: what is in flight to swap has its flat
/// bytes, so each unit makes of the image what `image_behind` says, and a list of units what `swapped_from` says. Each
/// run has such a machine, where images fit and numbers of processes are longwords; so after a journal the image that it
/// says has the flat bytes of each page that is on swap alone.
pub fn images_agree()
    ensures writes { (A : Inputs) (s : State) (k : Kernel) (image : List ℕ) → StandsAt A s k image → AllFlat A s k s.place.transfers }
    ensures unit { (A : Inputs) (s : State) (k : Kernel) (image : List ℕ) (u : Entry) → Next A s k image u
        → unit_image k image u ≡ image_behind A s u image }
    ensures units { (A : Inputs) (us : List Entry) (s t : State) (k l : Kernel) (image behind : List ℕ) → ImagesFit A.images → IsRun A s
        → StandsAt A s k image → Makes A s k image us t l behind → behind ≡ swapped_from A s us image }
    ensures journal { JournalSaysImage }
    ensures there { (A : Inputs) (s : State) (k : Kernel) (image : List ℕ) → StandsAt A s k image → HasSwapped A s image }
    ensures run { RunHasSwapped }
{}

/// At most 4,096 pages of data and 512 of stack in each space, and at most 64 processes: at the start, after each step of
/// the flat machine, in each run of it, and so at each state that a run reaches, in its placement too.
pub fn sizes_stand()
    ensures start { (A : Inputs) → InputsSized A → ImagesFit A.images → FlatSized (start_state A) }
    ensures step { (A : Inputs) (F : FlatState) (pid : ℕ) (refused : Bool) → InputsSized A → ImagesFit A.images → FlatSized F
        → FlatSized (flat_step A F pid refused).after }
    ensures run { (A : Inputs) (journal : List Entry) (point : Point) → InputsSized A → ImagesFit A.images → flat_run A journal ≡ Some point
        → FlatSized point.flat }
    ensures reached { (A : Inputs) (hs : Holdings) (journal : List Entry) (s : State) → CanRun A hs → InputsSized A → Reaches A journal s
        → FlatSized s.point.flat × PlaceSized s.place }
{}

/// Inputs that stand in files are as a run asks: a run may begin, or the pieces of one of the first processes find no
/// place; the images are as long as their pages; and no segment has too many of them.
pub fn inputs_fit()
    ensures begins { (A : Inputs) → AreInputs A → MayBegin A }
    ensures images { (A : Inputs) → AreInputs A → ImagesFit A.images }
    ensures sizes { (A : Inputs) → AreInputs A → InputsSized A }
{}

/// Each process that lives is resident, or out, at each state at which a run stands. So what is left of putting a process
/// out falls with each unit of it, and it ends.
pub fn residents_stand()
    ensures each { (A : Inputs) (s : State) (pid : ℕ) → IsRun A s → lives (map kept_of s.point.flat.processes) pid ≡ true
        → IsResident s.place pid }
    ensures falls { PuttingOutFalls }
    ensures whole { (A : Inputs) (s : State) (pid at : ℕ) → IsRun A s → s.mark ≡ marks.PutOut pid
        → EndsPuttingOut at s.place pid (space_of_process (process_of s.point.flat pid)) }
{}

/// In a run whose images fit, and whose first processes, 1 and the most instructions are fewer than 2 ^ 32 together, each
/// process has sixteen registers that are longwords and holds a space of bytes. So a machine is given what it asks of a
/// process that goes out.
pub fn registers_stand()
    ensures reached { (A : Inputs) (hs : Holdings) (journal : List Entry) (s : State) → CanRun A hs → AllImages A.images
        → length A.first + 1 + A.limit < 2 ^ 32 → Reaches A journal s → ProcessesFit s.point.flat.processes }
    ensures given { (A : Inputs) (s : State) (k : Kernel) (image : List ℕ) (read : List (List ℕ)) (pid : ℕ)
        → Next A s k image (entries.SwapOut pid) → ProcessesFit s.point.flat.processes → IsGiven A s k image read (entries.SwapOut pid) }
{}

/// What a process reads in the flat machine is what the frames hold: a byte of a page that is valid, of text, data or stack,
/// is the byte at its place in the page's frame, whatever the files and the swap image are.
pub fn reads_are_flat()
    ensures { ReadsAreFlat }
{}
