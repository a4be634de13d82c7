//! Laws of the steps of paging: owners, bytes, what is due, and that serving ends. There is no code here.
ghost use Rattle.std.specs.Prelude.{◌≡◌, ◌≢◌, ◌⊎◌, ℕ, ◌+◌, ◌*◌, ◌<◌, ◌≤◌, Bool, true, false, List, [], ◌∷◌, length, Some, None};
ghost use Rattle.vm_facts.specs.declared.page.Page.{Page};
ghost use Rattle.vm_facts.specs.declared.page.Page.TheVariants.{Text};
ghost use Rattle.vm_facts.specs.declared.page.PageState.TheVariants.{Valid, Going, Unfilled, OnSwap};
ghost use Rattle.vm_facts.specs.declared.entry.Entry.{Entry};
ghost use Rattle.aout_image.specs.declared.Image.{Image};
ghost use Rattle.page_model.specs.Holdings.{Holdings, block_in};
ghost use Rattle.page_model.specs.Owner.TheVariants.{U};
ghost use Rattle.page_model.specs.Book.{IsBook};
ghost use Rattle.page_model.specs.Change.{Change as AnyChange};
ghost use Rattle.page_model.specs.Pages.{is_valid};
ghost use Rattle.page_model.specs.PageNames.{number_of};
ghost use Rattle.page_model.specs.Placement.{Placement, Transfer, slots_of, state_of, is_dirty, page_of, IsThere, mark_of, Starting, start_placement};
ghost use Rattle.page_model.specs.Moves.{touch, reclaim, done, launch_run};
ghost use Rattle.page_model.specs.Hands.{hand_move, hand_run, expire, advance};
ghost use Rattle.page_model.specs.Place.{moved, place_entry, place_change, filled, put_step, resize, fork_space, enter_space, leave_text, Changing};
ghost use Rattle.page_model.specs.Serve.{force, serve_unit, serve_entry, serve_step};
ghost use Rattle.page_model.specs.Reading.{read_step, source_for};
ghost use Rattle.vm_facts.specs.Swap.{most_in_flight};
ghost use Rattle.page_model.specs.Swapper.{Runner, In, Out, Nothing, residence_of, is_settled, swap_choice, is_out, put_out_unit};
ghost use Rattle.page_model.specs.Conditions.{begins, HaveParts, CanBegin, EachPage, AllApart, CanEnter, HasSeat, IsNew, IsSettled, CanPlace, Spares};
ghost use Rattle.page_model.specs.Rank.{far, rank, HandsStand, HasRoom, EndsForcing, EndsServing};
ghost use Rattle.page_model.specs.Ownership.{OwnsFrames, OwnsBlocks, TextAside, HasBlocks, block_of, needs_blocks};
ghost use Rattle.page_model.specs.PageBytes.{Bytes, CouplesPages, SamePage, SameBytes, with_frame, ReadsFrom, IsWritable, WritesBoth, BytesAfter, NotIn};
ghost use Rattle.page_model.specs.Stored.{stored, store_at};
ghost use Rattle.page_model.specs.Swapping.{ComesIn, GoesOut, NoneMoves};
ghost use Rattle.page_model.specs.PuttingOut.{IsResident, put_rank, EndsPuttingOut};
ghost use Rattle.page_model.specs.Runs.{run_in, run_out, run_put, run_alone, Run, pages_of_run};
ghost use Rattle.page_laws.specs.Neighbours.{IsWidestRun, IsLongestRun, MayRead, IsSwappedBeside, IsUnfilledBeside, IsIdleBeside, IsSeatedBeside};
ghost use Rattle.vm_facts.specs.Lists.{times};
ghost use Rattle.page_laws.specs.Sweeping.{MayBeSwept};
ghost use Rattle.page_model.specs.Pages.{frame_of};
ghost use Rattle.page_laws.specs.Leaving.{StaysOrTaken, StaysOrGivenUp, IsDirtyIn, DirtyOrGivenUp, IsUnwritten, StaysOrWritten};
ghost use Rattle.page_model.specs.Dues.{DueStand, LeavesDue, NotDue};
ghost use Rattle.page_laws.specs.Owners.{StartHasOneOwner, ChangeKeepsFrames, EntryKeepsOwners, ChangeLeavesTextAside, StoreWritesOnePage};
ghost use Rattle.page_laws.specs.Memory.{FillKeepsBytes, UserWriteKeepsBytes, ResizeKeepsBytes, ForkKeepsBytes, NewSpaceKeepsBytes, RemovedSpaceKeepsBytes, ReadLeavesOthersSame};
ghost use Rattle.page_laws.specs.Dues.{ChangeKeepsDue};

/// What a run begins with is as the other laws ask: no page is filled, dirty or saved; each frame is free; and the hands
/// stand a quarter of the frames apart.
pub fn start_stands()
    ensures blank { (images : List Image) (first : List Starting) (frames : ℕ) (q : Page)
        → (state_of (start_placement images first frames) q ≡ Unfilled) × (mark_of (start_placement images first frames) q ≡ false) }
    ensures frames { (images : List Image) (first : List Starting) (frames : ℕ) → OwnsFrames (start_placement images first frames) }
    ensures hands { (images : List Image) (first : List Starting) (frames : ℕ) → 0 < frames → HandsStand (start_placement images first frames) }
    ensures text { (images : List Image) (first : List Starting) (frames : ℕ) → TextAside (start_placement images first frames) }
    ensures owner { StartHasOneOwner }
{}

/// Each frame keeps one owner: through each paging entry, each entry of a process with its change, and each unit
/// of serving a page.
pub fn ownership_kept()
    ensures entry { (locked : List Page) (at : ℕ) (p : Placement) (e : Entry) → OwnsFrames p → CanPlace p e → OwnsFrames (place_entry locked at p e) }
    ensures change { ChangeKeepsFrames }
    ensures serve { (p : Placement) (locked : List Page) (q : Page) → OwnsFrames p → IsThere p q → OwnsFrames (serve_step p locked q) }
    ensures settled { (p : Placement) (sid : ℕ) → OwnsFrames p → is_settled p sid ≡ true → IsSettled p sid }
{}

/// Each frame and each block keeps one owner, or is free, through each paging entry; each page that is on swap, on its
/// way there or from there, and each saved text page has its two blocks in its own owner's holding; and the blocks of
/// different pages don't meet, so that a write of one page leaves what the image has of all others. Changes of
/// processes leave text that nobody shares unsaved and, at most, in a free frame.
pub fn blocks_kept()
    ensures entry { EntryKeepsOwners }
    ensures text { ChangeLeavesTextAside }
    ensures places { (size : ℕ) (lives : ℕ → Bool) (p : Placement) (hs : Holdings) → OwnsBlocks size lives p hs → TextAside p
        → (q : Page) → needs_blocks p q ≡ true → HasBlocks size hs q }
    ensures apart { (size : ℕ) (hs : Holdings) (q r : Page) (x y : ℕ) → IsBook size hs → q ≢ r → block_of hs q ≡ Some x
        → block_of hs r ≡ Some y → (x + 2 ≤ y) ⊎ (y + 2 ≤ x) }
    ensures stores { StoreWritesOnePage }
{}

/// The flat bytes of each page stay where its state says, whatever the swap image and the files: through a fill, a
/// reclaim, the beginning of a read and of a write, a move of the hands, the end of a transfer, and a user write.
pub fn memory_kept()
    ensures fill { FillKeepsBytes }
    ensures reclaim { (p : Placement) (q : Page) (b : Bytes) → OwnsFrames p → CouplesPages p b → CouplesPages (reclaim p q) b }
    ensures read { (p : Placement) (q : Page) (b : Bytes) → OwnsFrames p → CanEnter p q → ReadsFrom p (source_for (state_of p q)) q q
        → CouplesPages p b → CouplesPages (read_step p q) b }
    ensures hands { (p : Placement) (locked : List Page) (b : Bytes) → OwnsFrames p → CouplesPages p b → CouplesPages (hand_move p locked) b }
    ensures put { (p : Placement) (q : Page) (qs : List Page) (b : Bytes) → OwnsFrames p → HasSeat p q → EachPage (HasSeat p) qs
        → AllApart qs → CouplesPages p b → CouplesPages (put_step p q qs) b }
    ensures done { (p : Placement) (b c : Bytes) → OwnsFrames p → length b.frames ≡ length p.holds → BytesAfter b p.transfers c
        → CouplesPages p b → CouplesPages (done p) c }
    ensures write { UserWriteKeepsBytes }
{}

/// The same through growth and break, a fork, a new image, a space that goes, and text that nobody shares any more:
/// the pages that stay keep their bytes, and the new ones have those that fill them.
pub fn spaces_kept()
    ensures resize { ResizeKeepsBytes }
    ensures fork { ForkKeepsBytes }
    ensures enter { NewSpaceKeepsBytes }
    ensures removed { RemovedSpaceKeepsBytes }
    ensures text { (p : Placement) (image : ℕ) (b : Bytes) → OwnsFrames p → CouplesPages p b → CouplesPages (leave_text p image) b }
{}

/// What a step leaves alone is the same in both machines: every page at a move of the hands, a reclaim and a put; every
/// other page at a fill and a user write; every page outside the run at the beginning of a read, and outside the
/// transfer at its end. So is every page as a process goes out, whose u page is no page's, or comes in; and at each change
/// of a process every page beside which the same bytes stand.
pub fn others_same()
    ensures hands { (p : Placement) (locked : List Page) (b : Bytes) (w : Page) → SamePage p (hand_move p locked) b b w }
    ensures fill { (p : Placement) (q : Page) (f : ℕ) (rest : List ℕ) (b : Bytes) (bytes : List ℕ) (w : Page) → OwnsFrames p
        → p.free ≡ f ∷ rest → w ≢ q → SamePage p (filled p q) b (with_frame b f bytes) w }
    ensures read { ReadLeavesOthersSame }
    ensures done { (p : Placement) (t : Transfer) (ts : List Transfer) (b c : Bytes) (w : Page) → OwnsFrames p → p.transfers ≡ t ∷ ts
        → BytesAfter b (t ∷ ts) c → NotIn w t.parts → SamePage p (done p) b c w }
    ensures put { (p : Placement) (q : Page) (qs : List Page) (b : Bytes) (w : Page) → SamePage p (put_step p q qs) b b w }
    ensures reclaim { (p : Placement) (q : Page) (b : Bytes) (w : Page) → SamePage p (reclaim p q) b b w }
    ensures write { (p : Placement) (q : Page) (f : ℕ) (b c : Bytes) (bytes : List ℕ) (w : Page) → OwnsFrames p → state_of p q ≡ Valid f
        → WritesBoth b c q f bytes → w ≢ q → SamePage p (touch p q) b c w }
    ensures residence { (p : Placement) (pid : ℕ) (out : Bool) (at : ℕ) (b : Bytes) (w : Page) → SamePage p (moved p pid out at) b b w }
    ensures u_page { (size pid : ℕ) (hs : Holdings) (image bytes : List ℕ) (w : Page) → IsBook size hs → 512 * size ≤ length image
        → length bytes ≡ 1024 → stored hs (store_at image (block_in hs (U pid) 0) bytes) w ≡ stored hs image w }
    ensures change { (who : Changing) (p : Placement) (change : AnyChange) (b c : Bytes) (w : Page) → IsNew p who.next_sid
        → SameBytes b c w → SamePage p (place_change who p change) b c w }
{}

/// Forcing a frame ends: `far` falls with each unit, whatever is locked. With nothing in flight it is at most one
/// more than there are frames, so a frame is free, or its write in flight, after as many moves as there are frames.
/// What was locked and valid stays valid. What forcing asks of the hands and of the frames is so again after each unit,
/// so it comes to a free frame, after no more units than `far` says.
pub fn forcing_ends()
    ensures falls { (p : Placement) (locked : List Page) → OwnsFrames p → HandsStand p → HasRoom p locked → p.free ≡ []
        → far (force p locked) locked < far p locked }
    ensures near { (p : Placement) (locked : List Page) → OwnsFrames p → HandsStand p → HasRoom p locked → p.transfers ≡ []
        → far p locked ≤ length p.holds + 1 }
    ensures stands { (p : Placement) (locked : List Page) → HandsStand p → HandsStand (hand_move p locked) }
    ensures hands { (p : Placement) (locked : List Page) → OwnsFrames p → HandsStand p → HandsStand (force p locked) }
    ensures room { (p : Placement) (locked : List Page) → OwnsFrames p → HasRoom p locked → HasRoom (force p locked) locked }
    ensures spares { (p : Placement) (locked : List Page) → OwnsFrames p → Spares p (force p locked) locked }
    ensures whole { (p : Placement) (locked : List Page) → OwnsFrames p → HandsStand p → HasRoom p locked → EndsForcing p locked }
{}

/// Serving a page ends: `rank` falls with each unit until the page is valid, and what was locked and valid stays
/// valid. What serving asks is so again after each unit, so the page is valid after no more units than `rank` says,
/// where waiting is allowed.
pub fn serving_ends()
    ensures falls { (p : Placement) (locked : List Page) (q : Page) → OwnsFrames p → HandsStand p → HasRoom p locked → IsThere p q
        → is_valid (state_of p q) ≡ false → rank (serve_step p locked q) locked q < rank p locked q }
    ensures hands { (p : Placement) (locked : List Page) (q : Page) → OwnsFrames p → HandsStand p → HandsStand (serve_step p locked q) }
    ensures room { (p : Placement) (locked : List Page) (q : Page) → OwnsFrames p → HasRoom p locked → HasRoom (serve_step p locked q) locked }
    ensures sizes { (p : Placement) (locked : List Page) (q w : Page) → OwnsFrames p
        → length (slots_of (serve_step p locked q) w) ≡ length (slots_of p w) }
    ensures spares { (p : Placement) (locked : List Page) (q : Page) → OwnsFrames p → IsThere p q → Spares p (serve_step p locked q) locked }
    ensures whole { (p : Placement) (locked : List Page) (q : Page) → OwnsFrames p → HandsStand p → HasRoom p locked → IsThere p q
        → EndsServing p locked q }
{}

/// The unit that serving asks for is its entry, whether waiting is allowed or not, and where there is none the page
/// is valid or serving would wait; and its step is what the entry does to a placement, wherever it stands in the journal.
pub fn serving_units()
    ensures now { (p : Placement) (q : Page) → is_valid (state_of p q) ≡ false → serve_unit p q true ≡ Some (serve_entry p q) }
    ensures unit { (p : Placement) (q : Page) (now : Bool) (e : Entry) → serve_unit p q now ≡ Some e
        → (is_valid (state_of p q) ≡ false) × (e ≡ serve_entry p q) }
    ensures step { (locked : List Page) (at : ℕ) (p : Placement) (q : Page) → is_valid (state_of p q) ≡ false
        → place_entry locked at p (serve_entry p q) ≡ serve_step p locked q }
{}

/// How many transfers are in flight: a read and a put begin one at most, and each move of the hands one; forcing and
/// serving never go beyond 16. Each transfer has a page, where a read and a put have one for it.
pub fn few_transfers()
    ensures entry { (locked : List Page) (at : ℕ) (p : Placement) (e : Entry)
        → length (place_entry locked at p e).transfers ≤ length p.transfers + begins e }
    ensures force { (p : Placement) (locked : List Page) → length p.transfers ≤ most_in_flight → length (force p locked).transfers ≤ most_in_flight }
    ensures serve { (p : Placement) (locked : List Page) (q : Page) → length p.transfers ≤ most_in_flight
        → length (serve_step p locked q).transfers ≤ most_in_flight }
    ensures parts { (locked : List Page) (at : ℕ) (p : Placement) (e : Entry) → OwnsFrames p → CanPlace p e → CanBegin p e
        → HaveParts p.transfers → HaveParts (place_entry locked at p e).transfers }
    ensures served { (p : Placement) (locked : List Page) (q : Page) → OwnsFrames p → HaveParts p.transfers
        → HaveParts (serve_step p locked q).transfers }
{}

/// Whom the swapper chooses: a process comes in only where it is out and awake, nobody else who is so has been out
/// longer, and enough frames are free; one goes out only where it is in, didn't borrow its space, and is the one to pick;
/// and nothing is done only where nobody may come in, or go out.
pub fn swapper_chooses()
    ensures comes { (p : Placement) (rs : List Runner) (pid : ℕ) → swap_choice p rs ≡ In pid → ComesIn p rs pid }
    ensures goes { (p : Placement) (rs : List Runner) (pid : ℕ) → swap_choice p rs ≡ Out pid → GoesOut p rs pid }
    ensures rests { (p : Placement) (rs : List Runner) → swap_choice p rs ≡ Nothing → NoneMoves p rs }
{}

/// A process that goes in or out is so since that place in the journal, and all others are as they were.
pub fn residence_moves()
    ensures own { (p : Placement) (pid : ℕ) (out : Bool) (at : ℕ) → IsResident p pid
        → residence_of (moved p pid out at).residents pid ≡ record { pid = pid; out = out; since = at } }
    ensures others { (p : Placement) (pid : ℕ) (out : Bool) (at n : ℕ) → n ≢ pid
        → residence_of (moved p pid out at).residents n ≡ residence_of p.residents n }
{}

/// What is due stays unfilled, with zeros, and the parent's page that it is copied from stays filled: through each
/// paging entry that fills or reads no page that is due after it, through forcing a frame, through serving a page that
/// isn't due, and through a user write. It is so at the start, after a fork, in a new space, and after each change that
/// comes while nothing is due, also where an old space goes as the new one comes.
pub fn due_kept()
    ensures entry { (locked : List Page) (at : ℕ) (p : Placement) (e : Entry) → OwnsFrames p → CanPlace p e → LeavesDue p e → DueStand p
        → DueStand (place_entry locked at p e) }
    ensures force { (p : Placement) (locked : List Page) → OwnsFrames p → DueStand p → DueStand (force p locked) }
    ensures serve { (p : Placement) (locked : List Page) (q : Page) → OwnsFrames p → IsThere p q → NotDue p.due q → DueStand p
        → DueStand (serve_step p locked q) }
    ensures start { (images : List Image) (first : List Starting) (frames : ℕ) → DueStand (start_placement images first frames) }
    ensures fork { (p : Placement) (parent child : ℕ) → IsNew p child → DueStand (fork_space p parent child) }
    ensures enter { (p : Placement) (sid image : ℕ) (facts : Image) → IsNew p sid → DueStand (enter_space p sid image facts) }
    ensures write { (p : Placement) (q : Page) → DueStand p → DueStand (touch p q) }
    ensures changes { ChangeKeepsDue }
{}

/// Putting a process out ends: each unit may be made, keeps frames owned, no more than 16 transfers in flight, each with
/// a page, what is due as it was, and the whole machine sound, and `put_rank` falls with it. So the process is out after no more units than that says; its
/// space is settled then, and no page of it is in a frame off the free list.
pub fn putting_out_ends()
    ensures can { (p : Placement) (pid sid : ℕ) → CanPlace p (put_out_unit p pid sid) }
    ensures owner { (locked : List Page) (at : ℕ) (p : Placement) (pid sid : ℕ) → OwnsFrames p
        → OwnsFrames (place_entry locked at p (put_out_unit p pid sid)) }
    ensures few { (locked : List Page) (at : ℕ) (p : Placement) (pid sid : ℕ) → length p.transfers ≤ most_in_flight
        → length (place_entry locked at p (put_out_unit p pid sid)).transfers ≤ most_in_flight }
    ensures parts { (locked : List Page) (at : ℕ) (p : Placement) (pid sid : ℕ) → OwnsFrames p → HaveParts p.transfers
        → HaveParts (place_entry locked at p (put_out_unit p pid sid)).transfers }
    ensures due { (locked : List Page) (at : ℕ) (p : Placement) (pid sid : ℕ) → OwnsFrames p → DueStand p
        → DueStand (place_entry locked at p (put_out_unit p pid sid)) }
    ensures falls { (locked : List Page) (at : ℕ) (p : Placement) (pid sid : ℕ) → OwnsFrames p → IsResident p pid → is_out p pid ≡ false
        → put_rank (place_entry locked at p (put_out_unit p pid sid)) pid sid < put_rank p pid sid }
    ensures whole { (at : ℕ) (p : Placement) (pid sid : ℕ) → OwnsFrames p → length p.transfers ≤ most_in_flight → IsResident p pid
        → is_out p pid ≡ false → EndsPuttingOut at p pid sid }
{}

/// Which pages are read or written with a page. Of data and stack at most 4 pages come from swap at once, of one chunk,
/// those above before those below; of text at most 2, upwards, on swap in one piece, or all unfilled; and of a data page
/// that comes from the image it alone. The hands write at most 16 at once, of one chunk or piece, all idle, dirty and not
/// locked; a put 16, upwards, all dirty in frames off the free list, and of a clean page it alone. No further page could
/// be added.
pub fn runs_are_widest()
    ensures data_in { (p : Placement) (q : Page) → IsWritable q → state_of p q ≡ OnSwap
        → IsWidestRun (IsSwappedBeside p q) (MayRead p 4) (number_of q) (run_in p q) }
    ensures text_in { (p : Placement) (image v : ℕ) → state_of p (Text image v) ≡ OnSwap
        → IsLongestRun (IsSwappedBeside p (Text image v)) (MayRead p 2) v (run_in p (Text image v)) }
    ensures file_in { (p : Placement) (image v : ℕ) → state_of p (Text image v) ≡ Unfilled
        → IsLongestRun (IsUnfilledBeside p (Text image v)) (MayRead p 2) v (run_in p (Text image v)) }
    ensures alone_in { (p : Placement) (q : Page) → IsWritable q → state_of p q ≡ Unfilled → run_in p q ≡ run_alone q }
    ensures out { (p : Placement) (locked : List Page) (q : Page)
        → IsWidestRun (IsIdleBeside p locked q) (λ n. n ≤ 16) (number_of q) (run_out p locked q) }
    ensures put { (p : Placement) (q : Page) → is_dirty p q ≡ true → IsLongestRun (IsSeatedBeside p q) (λ n. n ≤ 16) (number_of q) (run_put p q) }
    ensures alone_put { (p : Placement) (q : Page) → is_dirty p q ≡ false → run_put p q ≡ run_alone q }
{}

/// A move of the hands frees only clean pages, and begins to write only dirty ones. Each of them isn't locked, and was
/// invalid in a frame off the free list, or is made so by the same move.
pub fn moves_take_idle_pages()
    ensures freed { (p : Placement) (locked : List Page) (f : ℕ) → OwnsFrames p → times f p.free ≡ 0 → 0 < times f (hand_move p locked).free
        → (w : Page) × (page_of p f ≡ Some w) × MayBeSwept p locked w f × (is_dirty p w ≡ false) }
    ensures written { (p : Placement) (locked : List Page) (w : Page) (f : ℕ) → OwnsFrames p → state_of (hand_move p locked) w ≡ Going f
        → (state_of p w ≡ Going f) ⊎ (MayBeSwept p locked w f × (is_dirty p w ≡ true)) }
{}

/// The write that a move of the hands begins is the one that `hand_run` names; and where it names none, the move begins none.
pub fn moves_write_their_run()
    ensures begins { (p : Placement) (locked : List Page) (q : Page) (r : Run) → hand_run p locked ≡ Some (q, r)
        → hand_move p locked ≡ advance (launch_run (expire p locked) (pages_of_run q r)) }
    ensures rests { (p : Placement) (locked : List Page) → hand_run p locked ≡ None → (hand_move p locked).transfers ≡ p.transfers }
{}

/// How a page leaves its frame. By a paging entry only if that takes the frame from the free list, for a fill or a read;
/// and by a change of a process only if the change gives the page up; till then a dirty page stays dirty there. What must
/// be written first, dirty pages and text that isn't saved, stays in its frame and off the free list through each paging
/// entry, till the end of its write.
pub fn frames_are_left()
    ensures entry { (locked : List Page) (at : ℕ) (p : Placement) (e : Entry) (q : Page) (f : ℕ) → OwnsFrames p → CanPlace p e
        → frame_of (state_of p q) ≡ Some f → StaysOrTaken p e (place_entry locked at p e) q f }
    ensures change { (c : Changing) (p : Placement) (change : AnyChange) (q : Page) → IsNew p c.next_sid
        → StaysOrGivenUp p c.sid c.borrowed change (place_change c p change) q }
    ensures dirty { (c : Changing) (p : Placement) (change : AnyChange) (q : Page) (f : ℕ) → IsNew p c.next_sid → IsDirtyIn p q f
        → DirtyOrGivenUp c.sid c.borrowed change (place_change c p change) q f }
    ensures written { (locked : List Page) (at : ℕ) (p : Placement) (e : Entry) (q : Page) (f : ℕ) → OwnsFrames p → CanPlace p e
        → IsUnwritten p q f → StaysOrWritten p e (place_entry locked at p e) q f }
{}
