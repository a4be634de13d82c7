//! Laws that the counts agree with the journal and with the owners at its end. There is no code here.
ghost use Rattle.std.specs.Prelude.{List};
ghost use Rattle.flat_state.specs.Flat.{Inputs};
ghost use Rattle.run_model.specs.State.{State};
ghost use Rattle.run_stats.specs.declared.noting.Note.{Note as Noted};
ghost use Rattle.run_stats.specs.Story.{AreNoted};
ghost use Rattle.run_stats.specs.Agreeing.{AgreesWith, EndsAt};

/// The counts over a run's notes agree with its journal: whoever runs, all pages that are filled, reclaimed and copied, and all moves of
/// the hands, are those of its entries.
pub fn counts_agree()
    ensures { (A : Inputs) (s t : State) (notes : List Noted) → AreNoted A s notes t → AgreesWith s t notes }
{}

/// What is looked at last is so where the run ends: an entry of its owners there has those numbers. The extremes bound them.
pub fn ends_are_looked_at()
    ensures { (A : Inputs) (s t : State) (notes : List Noted) → AreNoted A s notes t → EndsAt s t notes }
{}
