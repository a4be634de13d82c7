//! How few pages the next instruction of a process touches, and that spaces are of whole pages. There is no code
//! here.
ghost use Rattle.std.specs.Prelude.{◌≡◌, ℕ, ◌≤◌, Bool, List, length, Some, Ok};
ghost use Rattle.flat_state.specs.Flat.{FlatState, NamedImage, Inputs, start_state};
ghost use Rattle.vm_facts.specs.declared.entry.Entry.{Entry};
ghost use Rattle.vm_facts.specs.declared.page.Page.{Page};
ghost use Rattle.aout_image.specs.Image.{judged_image};
ghost use Rattle.kernel_model.specs.Placement.{Placement};
ghost use Rattle.kernel_model.specs.Rank.{HasRoom};
ghost use Rattle.kernel_model.specs.Start.{ImagesFit};
ghost use Rattle.flat_model.specs.Run.{Point, flat_run};
ghost use Rattle.flat_model.specs.Step.{flat_step};
ghost use Rattle.flat_model.specs.Touched.{touched};
ghost use Rattle.flat_laws.specs.Whole.{HoldsWhole, EachWhole, ImageWhole, ImagesWhole, AllSized};

/// The next instruction of a process, with its call where it is one, touches 28 pages at most, where the space that the
/// process holds has text and data of whole pages below 2 ^ 32. So no list of locked pages that is no longer than 32
/// leaves too few frames, where there are 64 frames.
pub fn touched_are_few()
    ensures few { (A : Inputs) (F : FlatState) (pid : ℕ) → HoldsWhole F pid → length (touched A F pid) ≤ 28 }
    ensures each { (A : Inputs) (F : FlatState) (pid : ℕ) → EachWhole F → length (touched A F pid) ≤ 28 }
    ensures spare { (place : Placement) (pages : List Page) → length pages ≤ 32 → 64 ≤ length place.holds → HasRoom place pages }
{}

/// Text and data of each space that a process holds are whole pages, 2,048 and 4,096 at most: at the start, after each
/// step, and in each run, where the images' are so; and those of an image that a file is are so. Such spaces are of whole
/// pages below 2 ^ 32.
pub fn spaces_are_whole()
    ensures start { (A : Inputs) → ImagesWhole A.images → AllSized (start_state A).processes }
    ensures step { (A : Inputs) (F : FlatState) (pid : ℕ) (refused : Bool) → ImagesWhole A.images → AllSized F.processes
        → AllSized (flat_step A F pid refused).after.processes }
    ensures run { (A : Inputs) (journal : List Entry) (point : Point) → ImagesWhole A.images → flat_run A journal ≡ Some point
        → AllSized point.flat.processes }
    ensures whole { (F : FlatState) → AllSized F.processes → EachWhole F }
    ensures image { (named : NamedImage) (bytes : List ℕ) → judged_image bytes ≡ Ok named.image → ImageWhole named }
{}

/// So in each run the next instruction of each process touches 28 pages at most, where the images' text and data are whole pages. They
/// are where the images fit, and so are those of each space then.
pub fn runs_touch_few()
    ensures whole { (A : Inputs) (journal : List Entry) (point : Point) → ImagesFit A.images → flat_run A journal ≡ Some point
        → EachWhole point.flat }
    ensures run { (A : Inputs) (journal : List Entry) (point : Point) (pid : ℕ) → ImagesFit A.images → flat_run A journal ≡ Some point
        → length (touched A point.flat pid) ≤ 28 }
    ensures few { (A : Inputs) (journal : List Entry) (point : Point) (pid : ℕ) → ImagesWhole A.images → flat_run A journal ≡ Some point
        → length (touched A point.flat pid) ≤ 28 }
{}
