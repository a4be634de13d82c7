//! Laws of the state of a run by itself: its counts, its journal, its flat point. There is no code here.
ghost use Rattle.std.specs.Prelude.{◌≡◌, ◌⊎◌, ℕ, ◌+◌, false, List, [], ◌∷◌, Some, None, Ok};
ghost use Rattle.flat_state.specs.Flat.{FlatState, Inputs, can_step};
ghost use Rattle.vm_facts.specs.declared.page.Page.{Page};
ghost use Rattle.vm_facts.specs.declared.entry.Entry.{Entry};
ghost use Rattle.swap_book.specs.Holdings.{Holdings};
ghost use Rattle.flat_state.specs.Journal.{append, appended, counted, instructions_of, units_of, IsUnit, AllUnits};
ghost use Rattle.flat_model.specs.Run.{Point, process_of_entry, flat_entry, flat_run};
ghost use Rattle.flat_model.specs.Touched.{touched};
ghost use Rattle.flat_model.specs.Asked.{asks, held_entry, held, start_held};
ghost use Rattle.run_model.specs.Snapshot.{start_snapshot, snapshot_after};
ghost use Rattle.run_model.specs.State.{State, start};
ghost use Rattle.run_model.specs.Wanted.{running, touched_next, AllValid, wanted, locked, Splits};
ghost use Rattle.run_model.specs.After.{snapshot_of, after, state_after, state_at, placed, AllFlat};
ghost use Rattle.run_model.specs.Act.{act, IsNext, AllNext, LastSays};

/// A state counts the instructions of the units that led to it, or of its journal, and its journal is the one that
/// the units make.
pub fn state_counts()
    ensures unit { (A : Inputs) (s : State) (u : Entry) → (after A s u).count ≡ s.count + counted u }
    ensures units { (A : Inputs) (s : State) (us : List Entry) → (state_after A s us).count ≡ s.count + instructions_of us }
    ensures journal { (A : Inputs) (hs : Holdings) (j : List Entry) → (state_at A hs j).count ≡ instructions_of j }
    ensures joined { (A : Inputs) (s : State) (us : List Entry) → (state_after A s us).journal ≡ appended s.journal us }
{}

/// The state after a journal goes on by one unit with it, and its placement doesn't rest on what is held.
pub fn state_goes_on()
    ensures unit { (A : Inputs) (hs : Holdings) (j : List Entry) (u : Entry) → IsUnit u → state_at A hs (append j u) ≡ after A (state_at A hs j) u }
    ensures units { (A : Inputs) (hs : Holdings) (us : List Entry) → AllUnits us → state_at A hs (appended [] us) ≡ state_after A (start A hs) us }
    ensures placed { (A : Inputs) (hs : Holdings) (j : List Entry) → (state_at A hs j).place ≡ placed A j }
{}

/// The snapshot of a state rests on no mark but by who runs under it: it goes on by itself with each unit.
pub fn snapshots_go_on()
    ensures start { (A : Inputs) (hs : Holdings) → snapshot_of (start A hs) ≡ start_snapshot A hs }
    ensures unit { (A : Inputs) (s : State) (u : Entry) → snapshot_of (after A s u) ≡ snapshot_after A (snapshot_of s) u }
{}

/// The point of a state is that of the flat machine, and its holdings are what is held: unit by unit, and after a
/// journal that is a run of the flat machine.
pub fn state_is_flat()
    ensures point { (A : Inputs) (s : State) (u : Entry) (q : Point) → flat_entry A s.point u ≡ Some q → (after A s u).point ≡ q }
    ensures holdings { (A : Inputs) (s : State) (u : Entry) → (after A s u).holdings ≡ held_entry A s.point u s.holdings }
    ensures flat { (A : Inputs) (hs : Holdings) (j : List Entry) (q : Point) → flat_run A j ≡ Some q → AllFlat A (start A hs) (units_of j) }
    ensures run { (A : Inputs) (hs : Holdings) (j : List Entry) → AllFlat A (start A hs) (units_of j) → flat_run A j ≡ Some (state_at A hs j).point }
    ensures held { (A : Inputs) (hs : Holdings) (j : List Entry) → start_held A ≡ Ok hs → AllFlat A (start A hs) (units_of j)
        → held A j ≡ Ok (state_at A hs j).holdings }
    ensures more { (A : Inputs) (j : List Entry) (u : Entry) (q : Point) → IsUnit u → flat_run A j ≡ Some q → flat_run A (append j u) ≡ flat_entry A q u }
{}

/// While nothing is due, the locked pages are the touched ones before the wanted one, all valid; where none is wanted
/// all touched pages are valid and locked.
pub fn wanted_splits()
    ensures splits { (A : Inputs) (s : State) (q : Page) → s.place.due ≡ [] → wanted A s ≡ Some q → Splits s.place (touched_next A s) (locked A s) q }
    ensures wanted { (A : Inputs) (s : State) (before : List Page) (q : Page) → s.place.due ≡ [] → Splits s.place (touched_next A s) before q
        → wanted A s ≡ Some q }
    ensures locked { (A : Inputs) (s : State) (before : List Page) (q : Page) → s.place.due ≡ [] → Splits s.place (touched_next A s) before q
        → locked A s ≡ before }
    ensures valid { (A : Inputs) (s : State) → s.place.due ≡ [] → AllValid s.place (locked A s) }
    ensures none { (A : Inputs) (s : State) → s.place.due ≡ [] → wanted A s ≡ None → AllValid s.place (touched_next A s) }
    ensures all { (A : Inputs) (s : State) → s.place.due ≡ [] → wanted A s ≡ None → locked A s ≡ touched_next A s }
    ensures unwanted { (A : Inputs) (s : State) → s.place.due ≡ [] → AllValid s.place (touched_next A s) → wanted A s ≡ None }
{}

/// A process that can't step touches no page, asks for no piece, does nothing, and wants no page.
pub fn idle_does_nothing()
    ensures touched { (A : Inputs) (F : FlatState) (pid : ℕ) → can_step F pid ≡ false → touched A F pid ≡ [] }
    ensures asks { (A : Inputs) (F : FlatState) (pid : ℕ) → can_step F pid ≡ false → asks A F pid ≡ [] }
    ensures acts { (A : Inputs) (s : State) (pid : ℕ) → can_step s.point.flat pid ≡ false → act A s pid ≡ None }
    ensures wants { (A : Inputs) (s : State) (pid : ℕ) → s.place.due ≡ [] → running s.mark ≡ Some pid → can_step s.point.flat pid ≡ false → wanted A s ≡ None }
{}

/// What a process does next is an entry of the flat machine's run that leads where the state goes. So a journal of
/// units, each of them that or no flat entry, is such a run.
pub fn next_is_flat()
    ensures unit { (A : Inputs) (s : State) (u : Entry) → LastSays A s.point.flat s.point.last → IsNext A s u
        → flat_entry A s.point u ≡ Some (after A s u).point }
    ensures says { (A : Inputs) (s : State) (u : Entry) → LastSays A s.point.flat s.point.last → ((process_of_entry u ≡ None) ⊎ IsNext A s u)
        → LastSays A (after A s u).point.flat (after A s u).point.last }
    ensures units { (A : Inputs) (hs : Holdings) (us : List Entry) → AllNext A (start A hs) us → AllFlat A (start A hs) us }
    ensures run { (A : Inputs) (hs : Holdings) (us : List Entry) → AllUnits us → AllNext A (start A hs) us
        → flat_run A (appended [] us) ≡ Some (state_after A (start A hs) us).point }
{}
