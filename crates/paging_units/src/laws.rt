//! Laws of units in order: they follow one another, and keep what they don't touch. There is no code here.
ghost use Rattle.std.specs.Prelude.{◌≡◌, ℕ, List, ◌++◌, Option};
ghost use Rattle.vm_facts.specs.SwapImages.{SwapImage};
ghost use Rattle.vm_facts.specs.declared.entry.Entry.{Entry};
ghost use Rattle.flat_state.specs.Flat.{NamedImage};
ghost use Rattle.flat_state.specs.Journal.{appended};
ghost use Rattle.page_model.specs.Placement.{Placement};
ghost use Rattle.page_model.specs.Serve.{Forces};
ghost use Rattle.kernel_model.specs.Kernel.{Kernel};
ghost use Rattle.kernel_model.specs.Sound.{TextFits};
ghost use Rattle.paging_units.specs.Made.{Ground, Made, SameBeside, starts_behind};

/// Units follow one another: those of two parts are made where both are, the journal after them is the one with these units
/// appended, and units that force a frame lead to the placement that forcing leads to.
pub fn units_follow()
    ensures parts { (g : Ground) (us vs : List Entry) (k l m : Kernel) (i j h : Option SwapImage)
        → Made g us k i l j → Made g vs l j m h → Made g (us ++ vs) k i m h }
    ensures journal { (g : Ground) (us : List Entry) (k l : Kernel) (i j : Option SwapImage)
        → Made g us k i l j → l.journal ≡ appended k.journal us }
    ensures forces { (g : Ground) (us : List Entry) (k l : Kernel) (i j : Option SwapImage) (r : Placement)
        → Made g us k i l j → Forces us k.place g.locked r → l.place ≡ r }
{}

/// Units keep who holds which blocks, the processes and the next numbers, and how long each text is. The bytes that are kept
/// for stack pages that are due go with a fill of such a page alone.
pub fn units_keep()
    ensures same { (g : Ground) (us : List Entry) (k l : Kernel) (i j : Option SwapImage) → Made g us k i l j → SameBeside k l }
    ensures starts { (g : Ground) (us : List Entry) (k l : Kernel) (i j : Option SwapImage)
        → Made g us k i l j → l.starts ≡ starts_behind us k.starts }
    ensures fits { (g : Ground) (us : List Entry) (k l : Kernel) (i j : Option SwapImage) (images : List NamedImage)
        → Made g us k i l j → TextFits images k.place → TextFits images l.place }
{}
