//! Laws of processes and their registers: who owns what at the start, u pages, lenders, what changes ask. There is no
//! code here.
ghost use Rattle.std.specs.Prelude.{◌≡◌, ℕ, false, ◌^◌, ◌<◌, List, Some, Ok};
ghost use Rattle.vm_facts.specs.declared.page.Page.{Page};
ghost use Rattle.vm_facts.specs.declared.entry.Entry.TheVariants as entries;
ghost use Rattle.vm_facts.specs.declared.regs.Regs.{Regs};
ghost use Rattle.aout_image.specs.declared.Image.{Image};
ghost use Rattle.swap_book.specs.Holdings.{Holdings};
ghost use Rattle.flat_state.specs.Flat.{FlatState, NamedImage, process_of, Zombie, Process, cleared};
ghost use Rattle.flat_state.specs.declared.change.Change.{Change as AnyChange};
ghost use Rattle.page_model.specs.Placement.{Starting, start_placement};
ghost use Rattle.page_model.specs.Swapper.{put_out_unit};
ghost use Rattle.page_model.specs.Ownership.{OwnsFrames, OneOwner};
ghost use Rattle.kernel_model.specs.Kernel.{Kernel, Proc, out_step};
ghost use Rattle.kernel_model.specs.Sound.{lives};
ghost use Rattle.kernel_model.specs.UPage.{u_page, regs_in, AreRegs};
ghost use Rattle.kernel_model.specs.Coupled.{SameTables};
ghost use Rattle.kernel_model.specs.Taken.{MayChange};
ghost use Rattle.kernel_model.specs.Asks.{WantsThese, first_found, is_started};
ghost use Rattle.kernel_model.specs.Numbers.{Numbered, ReadyFor};
ghost use Rattle.kernel_model.specs.Unit.{KernelState, proc_of};
ghost use Rattle.kernel_model.specs.Invariant.{Invariant, MayPut};
ghost use Rattle.kernel_laws.specs.Processes.{RegistersOutAreFree, ChangeAsksForPieces, FlatProcessIsReady, BorrowerHasLender, WritesFollow};
ghost use Rattle.kernel_laws.specs.Paging.{ServingMayBeMade, ForcingMayBeMade, ReadMayBeMade};

/// Once the first processes' pieces have found their places one after another, each frame and each block has one owner.
pub fn start_is_owned()
    ensures { (size : ℕ) (images : List Image) (first : List Starting) (frames : ℕ) (hs : Holdings)
        → first_found size images first frames ≡ Ok hs
        → OneOwner size (is_started 1 first) (start_placement images first frames) hs }
{}

/// The registers that go out into a u page come back from it.
pub fn registers_kept()
    ensures { (regs : Regs) (data_pages stack_pages : ℕ) → AreRegs regs → data_pages < 2 ^ 32 → stack_pages < 2 ^ 32
        → regs_in (u_page regs data_pages stack_pages) ≡ regs }
{}

/// The registers of a process that goes out are in its u page alone. Its record has none then; and whatever the record has of
/// one who is out, the machine stands for the same flat state.
pub fn registers_leave()
    ensures out { (k : Kernel) (pid : ℕ) (p : Proc) → proc_of k pid ≡ Some p
        → proc_of (out_step k pid) pid ≡ Some (record p { regs = cleared }) }
    ensures free { RegistersOutAreFree }
{}

/// What paging makes may be made. Each unit that serves a page may: of a page that is there, and isn't due; text is shared;
/// and what is read for the oldest transfer is told. So may each that forces a frame; a read of a page with its run, where
/// the page has no frame and is read from swap or from its file, a frame is free, and fewer than 16 transfers are in flight;
/// and a write by which a process goes out, wherever it comes.
pub fn paging_may()
    ensures serves { ServingMayBeMade }
    ensures forces { ForcingMayBeMade }
    ensures reads { ReadMayBeMade }
    ensures puts { (size : ℕ) (images : List NamedImage) (m : KernelState) (pid sid : ℕ) (q : Page) (n : ℕ) → Invariant size images m
        → put_out_unit m.kernel.place pid sid ≡ entries.Put q n → MayPut m.kernel.place q n }
{}

/// What a change asks. A process that lives, with its space there, and settled where that goes or loses pages, may make its
/// change, and wants no other pieces than those that it asks for; and these are exactly what each owner needs beyond what
/// it holds. A process of the flat state is ready so, and who is a zombie there lives no more.
pub fn changes_ask()
    ensures allows { (images : List Image) (k : Kernel) (pid : ℕ) (change : AnyChange)
        → OwnsFrames k.place → Numbered k → ReadyFor k pid change → MayChange images k pid change }
    ensures wants { (k : Kernel) (pid : ℕ) (change : AnyChange) → Numbered k → ReadyFor k pid change → WantsThese k pid change }
    ensures asks { ChangeAsksForPieces }
    ensures ready { FlatProcessIsReady }
    ensures reaps { (k : Kernel) (flat : FlatState) (child status : ℕ) (z : Process)
        → SameTables k flat → process_of flat child ≡ Some z → z.holding ≡ Zombie status → lives k.processes child ≡ false }
{}

/// A process that borrowed its space has one lender.
pub fn borrowers_have_lenders()
    ensures { BorrowerHasLender }
{}

/// Bytes that a process writes are written one after another.
pub fn writes_follow()
    ensures { WritesFollow }
{}
