//! Laws that the lines of `owners` tell each frame and each block once, as it is. There is no code here.
ghost use Rattle.std.specs.Prelude.{◌≡◌, ◌<◌, ℕ, Bool, List, length, Some, None};
ghost use Rattle.std.specs.List.{flat_map};
ghost use Rattle.vm_facts.specs.declared.entry.Entry.{Entry};
ghost use Rattle.vm_facts.specs.declared.entry.Entry.TheVariants.{Owners};
ghost use Rattle.flat_state.specs.Flat.{Inputs};
ghost use Rattle.page_model.specs.Book.{IsBook};
ghost use Rattle.page_model.specs.Holdings.{Holdings};
ghost use Rattle.page_model.specs.Placement.{Placement};
ghost use Rattle.page_model.specs.Ownership.{OwnsFrames, OneOwner};
ghost use Rattle.kernel_model.specs.Kernel.{Proc};
ghost use Rattle.machine_state.specs.Machine.{Standing};
ghost use Rattle.run_model.specs.State.{State};
ghost use Rattle.run_model.specs.declared.mark.Mark.TheVariants.{Audit};
ghost use Rattle.run_model.specs.Next.{owners_of, next_unit};
ghost use Rattle.run_model.specs.Lawful.{Reaches};
ghost use Rattle.run_laws.specs.Running.{CanRun};
ghost use Rattle.owner_lines.specs.Owners.{frame_lines, swap_lines, owners_text, owners_lines as machine_text};
ghost use Rattle.owner_lines.specs.Lines.{FrameLine, frame_text, Extent, extent_text};
ghost use Rattle.owner_lines.specs.Told.{FramesTold, SwapTold};
ghost use Rattle.owner_lines.specs.Account.{OwnersTold, text_at, IsToldAt, IsMachineAt};
ghost use Rattle.owner_lines.specs.First.{HasWholeEntries, ComeFirst};

/// Where each frame has one owner, the lines of frames are one for each, in order, and what a line says is so: a free frame
/// stands at the place that is told, a used one is off the free list with its page, and one in a transfer is a part of the
/// transfer of that number. The places that are told are those from 1 to the free list's length, each once.
pub fn frames_are_told()
    ensures { (p : Placement) → OwnsFrames p
        → (lines : List FrameLine) × (frame_lines p ≡ flat_map frame_text lines) × FramesTold p lines }
{}

/// Where no two holdings overlap, the lines of the swap area are rows of blocks that cover it from its first block to its
/// last, each from where the one before it ends; and each block is told with its holder, or as free.
pub fn swap_is_told()
    ensures { (size : ℕ) (hs : Holdings) → IsBook size hs
        → (rows : List Extent) × (swap_lines size hs ≡ flat_map extent_text rows) × SwapTold size hs rows }
{}

/// Where each frame and each block has one owner or is free, the whole text is its parts in order, with such lines of frames
/// and of the swap area. What can be counted off these is what the journal's entry of owners says of the same placement and
/// holdings: the frames that are free, used and in transfers, and the blocks that are held.
pub fn owners_are_told()
    ensures { (entries size : ℕ) (over : Bool) (lives : ℕ → Bool) (p : Placement) (hs : Holdings) (processes : List Proc)
        → OneOwner size lives p hs → OwnersTold entries over p hs size processes (owners_text entries over p hs size processes) }
{}

/// The same is so wherever a run is: of what is printed at each state that its next units reach, after as many entries as its
/// journal has. A next unit that notes the owners has these numbers, and where an audit is to come there is such a one.
pub fn runs_are_told()
    ensures told { (A : Inputs) (hs : Holdings) (journal : List Entry) (s : State) (entries : ℕ) (over : Bool) → CanRun A hs → Reaches A journal s
        → IsToldAt A entries over s (text_at A entries over s) }
    ensures audit { (A : Inputs) (hs : Holdings) (journal : List Entry) (s : State) → CanRun A hs → Reaches A journal s → s.mark ≡ Audit
        → next_unit A s ≡ Some (owners_of s.place s.holdings) }
    ensures noted { (A : Inputs) (s : State) (free used moving held : ℕ) → next_unit A s ≡ Some (Owners free used moving held)
        → Owners free used moving held ≡ owners_of s.place s.holdings }
{}

/// What is printed of a machine that stands at a state of a run is what is printed at that state: so the registers of each process that
/// is in are those of the flat machine.
pub fn machines_are_told()
    ensures { (A : Inputs) (s : State) (m : Standing) (over : Bool) → IsMachineAt A s m
        → machine_text m over ≡ text_at A (length m.kernel.journal) over s }
{}

/// Entries after which it is told who owns what are the first ones of the run: where the next unit isn't joined to the last of them, they
/// come first in each longer journal of the same run, and in that of the finished run. There is one such journal of each length,
/// and it leads to one state.
pub fn entries_are_first()
    ensures longer { (A : Inputs) (journal more : List Entry) (s t : State) → Reaches A journal s → Reaches A more t → HasWholeEntries A journal s
        → length journal < length more → ComeFirst journal more }
    ensures finished { (A : Inputs) (journal more : List Entry) (s t : State) → Reaches A journal s → Reaches A more t → HasWholeEntries A journal s
        → next_unit A t ≡ None → ComeFirst journal more }
    ensures one { (A : Inputs) (journal more : List Entry) (s t : State) → Reaches A journal s → Reaches A more t → HasWholeEntries A journal s
        → HasWholeEntries A more t → length journal ≡ length more → (journal ≡ more) × (s ≡ t) }
{}
