//! Laws of paged runs by any policy: flat, owned, and standing with their bytes. There is no code here.
ghost use Rattle.std.specs.Prelude.{◌≡◌, ◌≤◌, ℕ, List, Some, None};
ghost use Rattle.vm_facts.specs.declared.event.Event.{Event};
ghost use Rattle.vm_facts.specs.declared.entry.Entry.{Entry};
ghost use Rattle.flat_state.specs.Flat.{Inputs};
ghost use Rattle.flat_state.specs.Journal.{instructions_of, IsUnit};
ghost use Rattle.flat_model.specs.Run.{Point, flat_run};
ghost use Rattle.swap_book.specs.Holdings.{Holdings};
ghost use Rattle.kernel_model.specs.Kernel.{Kernel};
ghost use Rattle.kernel_model.specs.Start.{ImagesFit};
ghost use Rattle.run_model.specs.State.{State, start};
ghost use Rattle.run_model.specs.Lawful.{Reaches};
ghost use Rattle.run_laws.specs.Machine.{unit_step, unit_image, IsGiven, StandsAt};
ghost use Rattle.run_laws.specs.Running.{CanRun};
ghost use Rattle.paged_model.specs.Runs.{paged_after, unit_reason, first_misstep, IsPagedRun};
ghost use Rattle.paged_laws.specs.Led.{led_to, PlacedAt, OwnedAt, with_others};
ghost use Rattle.paged_laws.specs.Paged.{IsPaged};

/// What programs can see of a paged run, by any policy, is a run of the flat machine, in which each process has memory of its own and no page
/// ever leaves. It counts no more instructions than may be.
pub fn paged_runs_are_flat()
    ensures flat { (A : Inputs) (es : List Entry) → IsPagedRun A es → (point : Point) × (flat_run A es ≡ Some point) }
    ensures few { (A : Inputs) (es : List Entry) → IsPagedRun A es → instructions_of es ≤ A.limit }
{}

/// At each state of a paged run, by any policy, each frame and each block of swap has one owner or is free, at most 16 transfers are in
/// flight, the hands are a quarter apart, what is due waits to be filled, and the spaces and the holdings are those of the flat state.
pub fn paged_runs_are_owned()
    ensures stands { (A : Inputs) (hs : Holdings) (es : List Entry) → CanRun A hs → first_misstep A hs es ≡ None → PlacedAt A (led_to A hs es) }
    ensures owner { (A : Inputs) (hs : Holdings) (es : List Entry) → CanRun A hs → first_misstep A hs es ≡ None → OwnedAt A (led_to A hs es) }
{}

/// A machine with its bytes along a paged run, by any policy. At the start of a run all stands that stands at a state of a paged run
/// (`IsPaged`), and so it does after each unit that may come. A machine that stands at a state, with its placement, its holdings and its journal,
/// coupled to the flat state, stands at the next one after the unit's own step.
pub fn paged_machines_stand()
    ensures start { (A : Inputs) (hs : Holdings) → CanRun A hs → IsPaged A (start A hs) }
    ensures unit { (A : Inputs) (s : State) (u : Entry) → ImagesFit A.images → IsUnit u → IsPaged A s → unit_reason A s u ≡ None
        → IsPaged A (paged_after A s u) }
    ensures machine { (A : Inputs) (s : State) (k : Kernel) (image : List ℕ) (read : List (List ℕ)) (u : Entry) → ImagesFit A.images → IsUnit u
        → IsPaged A s → StandsAt A s k image → unit_reason A s u ≡ None → IsGiven A s k image read u
        → StandsAt A (paged_after A s u) (unit_step A s k image read u) (unit_image k image u) }
{}

/// Each journal to which the written policy leads from the start, in 64 frames or more, is a run of the paged machine: by its lines it may be
/// any policy's.
pub fn policy_runs_are_paged()
    ensures { (A : Inputs) (hs : Holdings) (journal : List Entry) (s : State) → CanRun A hs → 64 ≤ A.frames → Reaches A journal s → IsPagedRun A journal }
{}

/// A paged run is one whatever the lines of the schedule are, and with each larger limit. So with one limit the runs of all smaller ones are
/// judged, each with its own schedule.
pub fn paged_runs_need_no_schedule()
    ensures { (A : Inputs) (lines : List Event) (limit : ℕ) (es : List Entry) → A.limit ≤ limit → IsPagedRun A es
        → IsPagedRun (with_others A lines limit) es }
{}
