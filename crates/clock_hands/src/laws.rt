//! The law that moves which a line of the schedule asks for are next units of a run. There is no code here.
ghost use Rattle.std.specs.Prelude.{◌≡◌, ℕ, List, [], ◌∷◌, Some};
ghost use Rattle.vm_facts.specs.declared.entry.Entry.{Entry};
ghost use Rattle.flat_state.specs.Flat.{Inputs};
ghost use Rattle.page_model.specs.Placement.{Placement};
ghost use Rattle.run_model.specs.declared.mark.Mark.TheVariants.{Hands};
ghost use Rattle.run_model.specs.State.{State};
ghost use Rattle.run_model.specs.Next.{next_unit};
ghost use Rattle.clock_hands.specs.Moved.{Moves};

/// Where a line of the schedule asks for moves and nothing is due, the first of the units of moving is the next unit of all
/// that the policy names.
pub fn moves_are_asked()
    ensures { (A : Inputs) (s : State) (n : ℕ) (e : Entry) (us : List Entry) (r : Placement)
        → s.mark ≡ Hands n → s.place.due ≡ [] → Moves (e ∷ us) n s.place r → next_unit A s ≡ Some e }
{}
