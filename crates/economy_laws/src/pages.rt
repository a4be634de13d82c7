//! Who is ready when an instruction is counted, which pages come, and how a page leaves its frame. There is no code
//! here.
ghost use Rattle.std.specs.Prelude.{◌≡◌, ◌≢◌, ◌⊎◌, ℕ, Bool, List, Some, None};
ghost use Rattle.vm_facts.specs.declared.page.Page.{Page};
ghost use Rattle.vm_facts.specs.declared.entry.Entry.{Entry};
ghost use Rattle.vm_facts.specs.declared.entry.Entry.TheVariants as entries;
ghost use Rattle.flat_state.specs.Flat.{Inputs};
ghost use Rattle.page_model.specs.Pages.{frame_of};
ghost use Rattle.page_model.specs.Placement.{state_of};
ghost use Rattle.page_laws.specs.Leaving.{IsDirtyIn, IsUnwritten, StaysOrWritten};
ghost use Rattle.flat_model.specs.Run.{process_of_entry};
ghost use Rattle.run_model.specs.State.{State};
ghost use Rattle.run_model.specs.After.{after};
ghost use Rattle.run_model.specs.Next.{next_unit};
ghost use Rattle.run_model.specs.Lawful.{Follows};
ghost use Rattle.kernel_model.specs.Start.{ImagesFit};
ghost use Rattle.run_laws.specs.Running.{IsRun, ReadyToStep};
ghost use Rattle.economy_laws.specs.Called.{IsWanted, IsStartDue, IsCopyDue, IsParentOfDue, IsSmallRead};
ghost use Rattle.economy_laws.specs.Lost.{IsLost};
ghost use Rattle.economy_laws.specs.Cleaned.{IsCleaned, CleanedIn};

/// Where an instruction is counted, a stack grows, and a process calls, sleeps or ends, the process can step and is in,
/// nothing is due, and all pages that the instruction touches are valid.
pub fn processes_are_ready()
    ensures ran { (A : Inputs) (s : State) (pid n : ℕ) → next_unit A s ≡ Some (entries.Ran pid n) → ReadyToStep A s pid }
    ensures grew { (A : Inputs) (s : State) (pid pages : ℕ) → next_unit A s ≡ Some (entries.Grew pid pages) → ReadyToStep A s pid }
    ensures call { (A : Inputs) (s : State) (pid number r0 r1 : ℕ) (carry : Bool)
        → next_unit A s ≡ Some (entries.Call pid number carry r0 r1) → ReadyToStep A s pid }
    ensures sleeps { (A : Inputs) (s : State) (pid : ℕ) → next_unit A s ≡ Some (entries.Sleeps pid) → ReadyToStep A s pid }
    ensures ended { (A : Inputs) (s : State) (pid status : ℕ) → next_unit A s ≡ Some (entries.Ended pid status) → ReadyToStep A s pid }
{}

/// Pages come only as they are called for. A fill with zeros is of the page that a running process waits for, or of a
/// new stack page that is due first; a read and a reclaim are of the page that a process waits for, or of the parent's
/// page while a child's page is due; and a copy is of the child's page that is due first, from a valid page.
pub fn pages_are_called_for()
    ensures zero { (A : Inputs) (s : State) (q : Page) → IsRun A s → next_unit A s ≡ Some (entries.Zero q) → IsWanted A s q ⊎ IsStartDue s.place q }
    ensures get { (A : Inputs) (s : State) (q : Page) (lo n : ℕ) → next_unit A s ≡ Some (entries.Get q lo n)
        → IsWanted A s q ⊎ IsParentOfDue s.place q }
    ensures reclaim { (A : Inputs) (s : State) (q : Page) → next_unit A s ≡ Some (entries.Reclaim q) → IsWanted A s q ⊎ IsParentOfDue s.place q }
    ensures copy { (A : Inputs) (s : State) (q : Page) → next_unit A s ≡ Some (entries.Copy q) → IsCopyDue s.place q }
{}

/// A read brings the demanded page and few beside it, none of which a frame holds: at most 4 of data or stack and 2 of
/// text, of one chunk or piece where they are on swap.
pub fn reads_are_small()
    ensures { (A : Inputs) (s : State) (q : Page) (lo n : ℕ) → IsRun A s → next_unit A s ≡ Some (entries.Get q lo n) → IsSmallRead s.place q lo n }
{}

/// A page that has a frame has the same one after the next unit, unless it lost it: the frame was free and was taken, or
/// the page was given up. What must be written, a dirty page or text that isn't saved, stays in its frame, off the free
/// list, after each unit that isn't a process's, till the end of its write.
pub fn pages_leave_frames()
    ensures lost { (A : Inputs) (s : State) (u : Entry) (q : Page) (f : ℕ) → IsRun A s → next_unit A s ≡ Some u
        → frame_of (state_of s.place q) ≡ Some f → frame_of (state_of (after A s u).place q) ≢ Some f → IsLost A s u q f }
    ensures written { (A : Inputs) (s : State) (u : Entry) (q : Page) (f : ℕ) → IsRun A s → next_unit A s ≡ Some u
        → process_of_entry u ≡ None → IsUnwritten s.place q f → StaysOrWritten s.place u (after A s u).place q f }
{}

/// A dirty page of data or stack stays dirty, in its frame, after each unit, but for one that completes a write of it or
/// the step of a process that gives it up. So where it isn't there, or isn't dirty, after a list of units, one of them did
/// so: no frame of a dirty page is given to another one before the page is written.
pub fn dirty_pages_are_written()
    ensures unit { (A : Inputs) (s : State) (u : Entry) (q : Page) (f : ℕ) → IsRun A s → next_unit A s ≡ Some u → IsDirtyIn s.place q f
        → IsDirtyIn (after A s u).place q f ⊎ IsCleaned A s u q f }
    ensures units { (A : Inputs) (us : List Entry) (s t : State) (q : Page) (f : ℕ) → ImagesFit A.images → IsRun A s → Follows A s us t
        → IsDirtyIn s.place q f → IsDirtyIn t.place q f ⊎ CleanedIn A s us q f }
{}
