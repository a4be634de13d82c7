//! Laws of the flat run: it goes on entry by entry, and its calls are as documented. There is no code here.
ghost use Rattle.std.specs.Prelude.{◌≡◌, List, [], ◌∷◌, ◌++◌};
ghost use Rattle.vm_facts.specs.declared.entry.Entry.{Entry};
ghost use Rattle.flat_state.specs.Flat.{Inputs};
ghost use Rattle.flat_state.specs.Journal.{units_with};
ghost use Rattle.flat_model.specs.Run.{flat_run, flat_units};
ghost use Rattle.flat_model.specs.Documented.{DocumentedCalls};

/// A run goes on by one entry: where it stands with one more follows from where it stood before, and from that
/// entry alone.
#[tactic(auto, using(crate::proofs::Folds::run_more))]
pub fn runs_go_on()
    ensures { (A : Inputs) (journal : List Entry) (e : Entry) → flat_run A (journal ++ e ∷ []) ≡ flat_units A (flat_run A journal) (units_with e []) }
{}

/// The numbers of the errors are those of 4.3BSD, and the limits of the calls are this project's profile: both as FORMATS has them.
pub fn calls_are_documented()
    ensures { DocumentedCalls }
{}
