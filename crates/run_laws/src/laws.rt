//! Laws of a run's states: what stands after each unit, and how a run ends. There is no code here.
ghost use Rattle.std.specs.Prelude.{◌≡◌, ◌⊎◌, ℕ, ◌≤◌, Bool, List, length, Some, None};
ghost use Rattle.vm_facts.specs.declared.entry.Entry.{Entry};
ghost use Rattle.swap_book.specs.Holdings.{Holdings};
ghost use Rattle.flat_state.specs.Flat.{Inputs};
ghost use Rattle.kernel_model.specs.Start.{ImagesFit};
ghost use Rattle.flat_model.specs.Run.{process_of_entry};
ghost use Rattle.run_model.specs.State.{State, start};
ghost use Rattle.run_model.specs.After.{snapshot_of, after};
ghost use Rattle.run_model.specs.Next.{next_unit};
ghost use Rattle.run_model.specs.Lawful.{Follows, Reaches, IsLawful, IsFinished};
ghost use Rattle.run_model.specs.Kinds.{ProcessRuns};
ghost use Rattle.page_model.specs.Rank.{HasRoom};
ghost use Rattle.flat_laws.specs.Whole.{EachWhole};
ghost use Rattle.flat_model.specs.Touched.{touched};
ghost use Rattle.run_model.specs.Wanted.{wanted, locked};
ghost use Rattle.run_laws.specs.Standing.{IsAllowed};
ghost use Rattle.run_laws.specs.Running.{IsRun, CanRun, ReadyToStep, IsIdle};
ghost use Rattle.run_laws.specs.Turns.{ComesInTurn};

/// What stands of a run: at its start, after each next unit, after each list of next units, and so at each state that
/// a run reaches. Each frame and each block has one owner; at most 16 transfers are in flight, each with a page; the
/// hands are a quarter apart; what is due waits to be filled; the spaces and the holdings are those of the flat state.
pub fn runs_stand()
    ensures start { (A : Inputs) (hs : Holdings) → CanRun A hs → IsRun A (start A hs) }
    ensures unit { (A : Inputs) (s : State) (u : Entry) → ImagesFit A.images → IsRun A s → next_unit A s ≡ Some u → IsRun A (after A s u) }
    ensures units { (A : Inputs) (us : List Entry) (s t : State) → ImagesFit A.images → IsRun A s → Follows A s us t → IsRun A t }
    ensures reached { (A : Inputs) (hs : Holdings) (journal : List Entry) (s : State) → CanRun A hs → Reaches A journal s → IsRun A s }
{}

/// What each next unit finds: a paging entry its pages, its frame and its transfer; and a flat entry a process that can
/// step, is in, and all of whose touched pages are valid, while fewer instructions than the limit are counted. Lines come in their
/// order and turns after them, notes have the numbers of their state, and who steps does so in frames that no transfer has.
pub fn units_allowed()
    ensures allowed { (A : Inputs) (s : State) (u : Entry) → IsRun A s → next_unit A s ≡ Some u → IsAllowed s.place u }
    ensures ready { (A : Inputs) (s : State) (u : Entry) (pid : ℕ) → next_unit A s ≡ Some u → process_of_entry u ≡ Some pid → ReadyToStep A s pid }
    ensures turn { (A : Inputs) (s : State) (u : Entry) → IsRun A s → next_unit A s ≡ Some u → ComesInTurn A (snapshot_of s) u }
{}

/// A journal that next units make is a run of the flat machine to the state's point, with the state's count and
/// holdings.
pub fn lawful_is_flat()
    ensures { (A : Inputs) (hs : Holdings) (journal : List Entry) (s : State) → CanRun A hs → Reaches A journal s → IsLawful A journal s }
{}

/// A finished run counted as many instructions as may be, or took all lines and no process can step; no run counts
/// more. A process that runs, all of whose touched pages are valid, has a next unit, so no mark ends before it is over.
pub fn runs_end()
    ensures finished { (A : Inputs) (journal : List Entry) (s : State) → IsFinished A journal s → (s.count ≡ A.limit) ⊎ IsIdle A s }
    ensures below { (A : Inputs) (us : List Entry) (s t : State) → Follows A s us t → s.count ≤ A.limit → t.count ≤ A.limit }
    ensures goes { (A : Inputs) (s : State) (pid : ℕ) (now : Bool) → IsRun A s → ProcessRuns A s pid now → wanted A s ≡ None
        → (u : Entry) × (next_unit A s ≡ Some u) }
{}

/// At each state of a run an instruction touches 28 pages at most, with its call; so with 64 frames there is room beside
/// all that is locked.
pub fn instructions_have_room()
    ensures few { (A : Inputs) (s : State) (pid : ℕ) → IsRun A s → length (touched A s.point.flat pid) ≤ 28 }
    ensures room { (A : Inputs) (s : State) → IsRun A s → 64 ≤ A.frames → HasRoom s.place (locked A s) }
    ensures locked { (A : Inputs) (s : State) → EachWhole s.point.flat → 64 ≤ length s.place.holds → HasRoom s.place (locked A s) }
{}
