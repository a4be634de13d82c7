//! Laws of first processes that begin one by one. There is no code here.
ghost use Rattle.std.specs.Prelude.{◌≡◌, ℕ, List, []};
ghost use Rattle.aout_image.specs.declared.Image.{Image};
ghost use Rattle.swap_book.specs.Holdings.{Holdings};
ghost use Rattle.flat_state.specs.Flat.{Inputs};
ghost use Rattle.page_model.specs.Place.{facts_of};
ghost use Rattle.page_model.specs.Dues.{DueStand};
ghost use Rattle.kernel_model.specs.Kernel.{Kernel};
ghost use Rattle.kernel_model.specs.Numbers.{Numbered};
ghost use Rattle.kernel_model.specs.Start.{start_kernel, new_kernel, begin_step};
ghost use Rattle.kernel_laws.specs.Beginning.{NextProcessBegins, NextIsStarting, NextFindsPieces, BeginningKeepsOwners};

/// First processes begin one by one. The machine at the start of a run with none is new; with one first process more it is
/// the machine with those before it, once that one began. It finds its pieces after theirs.
pub fn starts_begin()
    ensures none { (A : Inputs) (frames : List (List ℕ)) → A.first ≡ []
        → start_kernel A [] [] frames ≡ new_kernel (facts_of A.images) A.frames frames }
    ensures next { NextProcessBegins }
    ensures starting { NextIsStarting }
    ensures pieces { NextFindsPieces }
{}

/// Where the next space has the number of the next process, as at the start, one first process more may begin once its
/// pieces were found: each frame and each block has one owner still, no two numbers are one, and what is due waits to be
/// filled.
pub fn begins_keep()
    ensures sound { BeginningKeepsOwners }
    ensures numbered { (k : Kernel) (found : Holdings) (image : ℕ) (name : List ℕ) (facts : Image)
        → k.next_sid ≡ k.next_pid → Numbered k → Numbered (begin_step k found image name facts) }
    ensures dues { (k : Kernel) (found : Holdings) (image : ℕ) (name : List ℕ) (facts : Image)
        → Numbered k → k.next_sid ≡ k.next_pid → DueStand k.place → DueStand (begin_step k found image name facts).place }
{}
