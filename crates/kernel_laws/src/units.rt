//! Laws of the whole machine between two units, and of pieces of swap that wait. There is no code here.
ghost use Rattle.std.specs.Prelude.{◌≡◌, ℕ, List};
ghost use Rattle.swap_book.specs.Holdings.{Holdings};
ghost use Rattle.flat_state.specs.Flat.{NamedImage, Inputs};
ghost use Rattle.page_model.specs.Placement.{Starting};
ghost use Rattle.kernel_model.specs.Kernel.{image_after};
ghost use Rattle.kernel_model.specs.Coupled.{Coupled};
ghost use Rattle.kernel_model.specs.Start.{ImagesFit};
ghost use Rattle.kernel_model.specs.Unit.{KernelUnit, KernelState, with_found, kernel_after, states_after};
ghost use Rattle.kernel_model.specs.Invariant.{Invariant, May, MayAll, CanStart, started};
ghost use Rattle.kernel_laws.specs.Waiting.{FoundPiecesWait, PiecesWaitOn};

/// All that is so of the kernel between two units is so at the start of a run, after each unit that it may make, and after
/// each list of units, one after another: each frame and each block of swap has one owner, no two numbers are one, what is
/// due waits to be filled, and the kernel's frames, its files and its swap image stand for the flat state, which changes by
/// what processes do and by nothing else. It is so too while pieces that were found wait for the change that takes them.
pub fn machine_kept()
    ensures start { (A : Inputs) (first : List Starting) (hs : Holdings) (frames : List (List ℕ)) (image : List ℕ)
        → CanStart A first hs frames image → Invariant A.swap_blocks A.images (started A first hs frames image) }
    ensures unit { (size : ℕ) (images : List NamedImage) (m : KernelState) (u : KernelUnit) → ImagesFit images
        → Invariant size images m → May size images m u → Invariant size images (kernel_after images m u) }
    ensures units { (size : ℕ) (images : List NamedImage) (us : List KernelUnit) (m : KernelState) → ImagesFit images
        → Invariant size images m → MayAll size images m us → Invariant size images (states_after images m us) }
{}

/// Pieces that were found and wait for a change take nothing from others: also with them the kernel stands for the flat
/// state, and the end of a write stores the same. Once what a change asks for was found, all is so as before; and so it is
/// after any number of transfers that end, while the pieces that wait are still those that the change asks for.
pub fn pieces_wait()
    ensures coupled { (size : ℕ) (images : List NamedImage) (m : KernelState) → Invariant size images m
        → Coupled (with_found m) images m.image m.flat }
    ensures image { (size : ℕ) (images : List NamedImage) (m : KernelState) → Invariant size images m
        → image_after (with_found m) m.image ≡ image_after m.kernel m.image }
    ensures found { FoundPiecesWait }
    ensures waits { PiecesWaitOn }
{}
