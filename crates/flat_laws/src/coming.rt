//! Which entry comes next, what touched pages are enough for, and what a step keeps of others. There is no code here.
ghost use Rattle.std.specs.Prelude.{◌≡◌, ◌≢◌, ℕ, Bool, List, Some, None};
ghost use Rattle.flat_state.specs.Space.{Space};
ghost use Rattle.flat_state.specs.Flat.{FlatState, Inputs, start_state};
ghost use Rattle.vm_facts.specs.declared.entry.Entry.{Entry};
ghost use Rattle.user_vax.specs.Instruction.{instruction};
ghost use Rattle.user_vax.specs.Program.{run};
ghost use Rattle.flat_state.specs.Numbers.{AllDistinct, pids_of, IsNumbered};
ghost use Rattle.flat_model.specs.Step.{flat_step};
ghost use Rattle.flat_model.specs.Run.{Point, process_of_entry, ComesAt, led_to, flat_entry, flat_run};
ghost use Rattle.flat_laws.specs.Others.{HoldsStill};
ghost use Rattle.flat_laws.specs.Determined.{NextEntryIsDetermined, NextEntriesAreOne};
ghost use Rattle.flat_laws.specs.Enough.{InstructionNeedsTouchedAlone, ReplyNeedsTouchedAlone, WritesAreTouched};
ghost use Rattle.flat_laws.specs.Pieces.{ChangeAsksAgree, StepAsksAgree};

/// What an entry is to a run of the flat machine, at a point of it. One of a process comes there just where all
/// conditions of `ComesAt` hold, and then leads to `led_to`; where one of them fails, it is none of the run. One of no
/// process leaves the point as it is.
pub fn entries_come()
    ensures leads { (A : Inputs) (point : Point) (pid : ℕ) (e : Entry) → ComesAt A point pid e → flat_entry A point e ≡ Some (led_to A point pid e) }
    ensures comes { (A : Inputs) (point next : Point) (pid : ℕ) (e : Entry) → process_of_entry e ≡ Some pid → flat_entry A point e ≡ Some next
        → ComesAt A point pid e × (next ≡ led_to A point pid e) }
    ensures refused { (A : Inputs) (point : Point) (pid : ℕ) (e : Entry) → process_of_entry e ≡ Some pid → (ComesAt A point pid e → ⊥)
        → flat_entry A point e ≡ None }
    ensures others { (A : Inputs) (point : Point) (e : Entry) → process_of_entry e ≡ None → flat_entry A point e ≡ Some point }
{}

/// The next entry of a process's step follows from the flat state, from whether its pieces were refused, and from
/// whether it has bytes out. So two entries of a process that may come next, neither of which says that pieces found no
/// place, are one.
pub fn entries_are_determined()
    ensures next { NextEntryIsDetermined }
    ensures one { NextEntriesAreOne }
{}

/// Where the touched pages alone are there, the next instruction of a process comes to what it comes to in the whole
/// space, and so does the reply of its call, after what the instruction wrote. Each byte that the step writes is of a
/// touched page.
pub fn touched_is_enough()
    ensures instruction { InstructionNeedsTouchedAlone }
    ensures reply { ReplyNeedsTouchedAlone }
    ensures writes { WritesAreTouched }
{}

/// After a step of a process every other process that holds a space holds it still, byte for byte.
pub fn others_keep_their_spaces()
    ensures { (A : Inputs) (F : FlatState) (pid other : ℕ) (refused : Bool) (s : Space) → AllDistinct (pids_of F) → other ≢ pid
        → HoldsStill F other s → HoldsStill (flat_step A F pid refused).after other s }
{}

/// Each process has a number of its own, below the next one, and so has each space: at the start, after each step, and
/// in each run of the flat machine.
pub fn numbers_are_kept()
    ensures start { (A : Inputs) → IsNumbered (start_state A) }
    ensures step { (A : Inputs) (F : FlatState) (pid : ℕ) (refused : Bool) → IsNumbered F → IsNumbered (flat_step A F pid refused).after }
    ensures run { (A : Inputs) (journal : List Entry) (point : Point) → flat_run A journal ≡ Some point → IsNumbered point.flat }
{}

/// Where a machine's tables are those of the flat state, a change of a process that holds a space wants the pieces of
/// swap space by the placement that it wants by the flat state. So the change by which a process's next step ends wants
/// just those that the step asks for.
pub fn asks_agree()
    ensures change { ChangeAsksAgree }
    ensures step { StepAsksAgree }
{}
