//! Laws of the written policy: it has one next unit, of few kinds. There is no code here.
ghost use Rattle.std.specs.Prelude.{◌≡◌, ℕ, List, [], ◌∷◌, ◌++◌, length, Some};
ghost use Rattle.vm_facts.specs.SwapImages.{StoreRequest, These};
ghost use Rattle.vm_facts.specs.declared.entry.Entry.{Entry};
ghost use Rattle.flat_state.specs.Flat.{Inputs};
ghost use Rattle.run_model.specs.State.{State};
ghost use Rattle.run_model.specs.Next.{next_unit};
ghost use Rattle.run_model.specs.Kinds.{Kind};
ghost use Rattle.run_model.specs.Lawful.{Follows};
ghost use Rattle.run_model.specs.Swapped.{requests_of, swap_left};

/// From a state so many next units lead one way, and one list of next units goes on by another.
pub fn follows_once()
    ensures once { (A : Inputs) (s t r : State) (us vs : List Entry) → Follows A s us t → Follows A s vs r → length us ≡ length vs → (us ≡ vs) × (t ≡ r) }
    ensures on { (A : Inputs) (s t r : State) (us vs : List Entry) → Follows A s us t → Follows A t vs r → Follows A s (us ++ vs) r }
{}

/// The next unit fills what is due or serves for it, serves the page that a process wants, is what the process does,
/// or what is asked by the last mark, or begins the next one.
pub fn next_is_one_of()
    ensures { (A : Inputs) (s : State) (u : Entry) → next_unit A s ≡ Some u → Kind A s u }
{}

/// A device that notes each request, and had noted these, has noted those of a journal after them once it is left so.
pub fn requests_are_noted()
    ensures { (A : Inputs) (journal : List Entry) (bytes : List ℕ) (before : List StoreRequest)
        → (swap_left A journal (record { bytes = bytes; noted = λ more. These (before ++ more) })).noted [] ≡ These (before ++ requests_of A journal) }
{}
