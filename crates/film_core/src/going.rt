//! A film goes on by one entry. The journal gets room for just that, and the first unit without room ends the call.
//! What is due comes first, then a begun step, the last mark, and a new line or turn.
ghost use Rattle.io_edge.specs.WithFiles.{stores};
ghost use Rattle.std.specs.Prelude.{◌≡◌, ◌⊎◌, ◌+◌, ◌<◌, ◌≤◌, ◌^◌, ℕ, false, length, slice_get, Some, None, OnOk, IfOk, IfErr};
ghost use Rattle.vm_facts.specs.declared.entry.Entry.{Entry as AnyEntry};
ghost use Rattle.vm_facts.specs.declared.event.Event.{Event as AnyEvent};
ghost use Rattle.flat_state.specs.Journal.{instructions_of, counted as entry_counts};
ghost use Rattle.machine_state.specs.Going.{CanGoOn, IsRunning};
ghost use Rattle.machine_state.specs.Outside.{Asks, IsBacked, stop_of, TransfersPages};
ghost use Rattle.vm_core.specs.LastMoves.{last_moves};
ghost use Rattle.vm_core.specs.Sizes.{KeptAtStop};
ghost use Rattle.vm_core.specs.Stepped.{AtSome, LeadsFrom, StopsFrom};
ghost use Rattle.vm_core.specs.Choosing.{turn_after};
ghost use Rattle.vm_core.specs.Runs.{IsSteady};
ghost use Rattle.vm_core.specs.Schedules.{HaveFewMoves};
ghost use Rattle.film_core.specs.Films.{IsFilming, FilmGoes, one_wider, FilmsAt};
ghost use Rattle.film_core.specs.Marks.{last_entry};
ghost use Rattle.film_core.specs.Ways.{MayNote, StaysOn, EndsRunning, RestDone, OverAt, PastAt, OverBeforeTurn, RunsOut, RoundAt, UnderAt, GoesAt};
ghost use Rattle.film_core.specs.Entries.{caught_up, FullAt, EntryMade};

use crate::film::Film;
use crate::marks::{
    counted_by, has_few_moves, last_turned, lines_after, mark_after, mark_of_event,
};
use crate::resting::rest;
use crate::settling::settle;
use io_edge::{Files, SwapDev};
use machine_state::Machine;
use run_model::Mark;
use std::alloc::Global;
use vm_core::note;
use vm_core::proc_run::{DecodeCache, next_turned};
use vm_facts::{Entry, Event, Stop};

/// What comes after a mark.
#[derive(Clone, Copy, Debug, PartialEq, Eq, Drop)]
enum Next {
    /// Nothing: the run is over.
    Over,
    /// The next line of the schedule.
    Line(Event),
    /// A turn of this process.
    Turn(u32),
}

// What comes after a mark, where so many lines are taken, so many instructions are counted, and this process had the last turn.
fn next_of(m: &Machine, lines: &[Event], taken: u32, counted: u32, last: u32) -> Next
    requires running { IsRunning m.now }
    ensures over { result ≡ Next.Over → (m.now.params.limit ≤ counted) ⊎ ((slice_get lines.now taken ≡ None) × (turn_after m.now.kernel last ≡ None)) }
    ensures line { (e : AnyEvent) → result ≡ Next.Line e → (counted < m.now.params.limit) × (slice_get lines.now taken ≡ Some e) }
    ensures turn { (pid : ℕ) → result ≡ Next.Turn pid → (counted < m.now.params.limit) × (slice_get lines.now taken ≡ None)
        × (turn_after m.now.kernel last ≡ Some pid) }
{
    if counted >= m.params().limit {
        return Next::Over;
    }
    match lines.get(taken as usize) {
        Some(e) => Next::Line(*e),
        None => match next_turned(m, last) {
            Some(pid) => Next::Turn(pid),
            None => Next::Over,
        },
    }
}

// The rest of a mark, where the journal has no room for another.
fn round<F: Files, D: SwapDev>(
    alloc: Global,
    cache: &mut DecodeCache,
    m: &mut Machine,
    files: &mut F,
    swap: &mut D,
    mark: Mark,
    lines: &[Event],
    taken: u32,
    counted: u32,
) -> Result<(), Stop>
    requires steady { IsSteady m.old }
    requires counted { instructions_of m.old.kernel.journal ≡ counted }
    requires full { m.old.params.journal ≤ length m.old.kernel.journal }
    requires round { AtSome (RoundAt m.old mark lines.now taken counted (F.holds files.old) (stores F.Files D.SwapDev files.old swap.old)) }
    requires backed { IsBacked m.old (F.holds files.old) (D.blocks swap.old) }
    ensures rounds { OnOk result
        (LeadsFrom (RoundAt m.old mark lines.now taken counted (F.holds files.old) (stores F.Files D.SwapDev files.old swap.old))
        (RunsOut m.old m.new (stores F.Files D.SwapDev files.new swap.new))) }
    ensures stops { IfErr result
        (StopsFrom (RoundAt m.old mark lines.now taken counted (F.holds files.old) (stores F.Files D.SwapDev files.old swap.old)) m.old m.new
        (stores F.Files D.SwapDev files.new swap.new)) }
    ensures ends { OnOk result (EndsRunning m.old m.new) }
    ensures kept { IfErr result (KeptAtStop m.old m.new) }
    ensures outside { TransfersPages F.Files D.SwapDev (stop_of result) files.old files.new swap.old swap.new }
{
    let count = rest(alloc, cache, m, files, swap, counted, mark)?;
    match next_of(m, lines, taken, count, last_turned(mark)) {
        Next::Over => Ok(()),
        Next::Line(_) | Next::Turn(_) => Err(Stop::JournalFull),
    }
}

// The next line of the schedule begins, and then as much of it comes as has room.
fn take_line<F: Files, D: SwapDev>(
    alloc: Global,
    cache: &mut DecodeCache,
    m: &mut Machine,
    files: &mut F,
    swap: &mut D,
    lines: &[Event],
    taken: u32,
    counted: u32,
    e: Event,
) -> Result<(), Stop>
    requires may { MayNote m.old }
    requires counted { instructions_of m.old.kernel.journal ≡ counted }
    requires wide { m.old.params.journal ≤ length m.old.kernel.journal + 1 }
    requires below { counted < m.old.params.limit }
    requires event { slice_get lines.now taken ≡ Some e }
    requires few { HaveFewMoves lines.now }
    requires count { length lines.now < 2 ^ 32 }
    requires past { AtSome (PastAt m.old lines.now taken counted (F.holds files.old) (stores F.Files D.SwapDev files.old swap.old)) }
    requires backed { IsBacked m.old (F.holds files.old) (D.blocks swap.old) }
    ensures over { OnOk result
        (LeadsFrom (PastAt m.old lines.now taken counted (F.holds files.old) (stores F.Files D.SwapDev files.old swap.old))
        (RunsOut m.old m.new (stores F.Files D.SwapDev files.new swap.new))) }
    ensures stops { IfErr result
        (StopsFrom (PastAt m.old lines.now taken counted (F.holds files.old) (stores F.Files D.SwapDev files.old swap.old)) m.old m.new
        (stores F.Files D.SwapDev files.new swap.new)) }
    ensures ends { OnOk result (EndsRunning m.old m.new) }
    ensures kept { IfErr result (KeptAtStop m.old m.new) }
    ensures outside { TransfersPages F.Files D.SwapDev (stop_of result) files.old files.new swap.old swap.new }
{
    note(m, Entry::Event { line: taken + 1 })?;
    let mark = mark_of_event(m, counted, e);
    round(
        alloc,
        cache,
        m,
        files,
        swap,
        mark,
        lines,
        taken + 1,
        counted,
    )
}

// A turn begins, and then as much of it comes as has room.
fn take_turn<F: Files, D: SwapDev>(
    alloc: Global,
    cache: &mut DecodeCache,
    m: &mut Machine,
    files: &mut F,
    swap: &mut D,
    lines: &[Event],
    taken: u32,
    counted: u32,
    pid: u32,
) -> Result<(), Stop>
    requires may { MayNote m.old }
    requires counted { instructions_of m.old.kernel.journal ≡ counted }
    requires wide { m.old.params.journal ≤ length m.old.kernel.journal + 1 }
    requires below { counted < m.old.params.limit }
    requires behind { slice_get lines.now taken ≡ None }
    requires count { length lines.now < 2 ^ 32 }
    requires past { AtSome (OverBeforeTurn m.old lines.now taken counted pid (F.holds files.old) (stores F.Files D.SwapDev files.old swap.old)) }
    requires backed { IsBacked m.old (F.holds files.old) (D.blocks swap.old) }
    ensures over { OnOk result
        (LeadsFrom (OverBeforeTurn m.old lines.now taken counted pid (F.holds files.old) (stores F.Files D.SwapDev files.old swap.old))
        (RunsOut m.old m.new (stores F.Files D.SwapDev files.new swap.new))) }
    ensures stops { IfErr result
        (StopsFrom (OverBeforeTurn m.old lines.now taken counted pid (F.holds files.old) (stores F.Files D.SwapDev files.old swap.old)) m.old m.new
        (stores F.Files D.SwapDev files.new swap.new)) }
    ensures ends { OnOk result (EndsRunning m.old m.new) }
    ensures kept { IfErr result (KeptAtStop m.old m.new) }
    ensures outside { TransfersPages F.Files D.SwapDev (stop_of result) files.old files.new swap.old swap.new }
{
    note(m, Entry::Turn { pid })?;
    let mark = Mark::Turn {
        pid,
        since: counted,
    };
    round(alloc, cache, m, files, swap, mark, lines, taken, counted)
}

// What comes after a mark, as much as has room.
fn pass<F: Files, D: SwapDev>(
    alloc: Global,
    cache: &mut DecodeCache,
    m: &mut Machine,
    files: &mut F,
    swap: &mut D,
    lines: &[Event],
    taken: u32,
    counted: u32,
    last: u32,
) -> Result<(), Stop>
    requires may { MayNote m.old }
    requires counted { instructions_of m.old.kernel.journal ≡ counted }
    requires wide { m.old.params.journal ≤ length m.old.kernel.journal + 1 }
    requires few { HaveFewMoves lines.now }
    requires count { length lines.now < 2 ^ 32 }
    requires past { AtSome (OverAt m.old lines.now taken counted last (F.holds files.old) (stores F.Files D.SwapDev files.old swap.old)) }
    requires backed { IsBacked m.old (F.holds files.old) (D.blocks swap.old) }
    ensures over { OnOk result
        (LeadsFrom (OverAt m.old lines.now taken counted last (F.holds files.old) (stores F.Files D.SwapDev files.old swap.old))
        (RunsOut m.old m.new (stores F.Files D.SwapDev files.new swap.new))) }
    ensures stops { IfErr result (StopsFrom (OverAt m.old lines.now taken counted last (F.holds files.old) (stores F.Files D.SwapDev files.old swap.old))
        m.old m.new (stores F.Files D.SwapDev files.new swap.new)) }
    ensures ends { OnOk result (EndsRunning m.old m.new) }
    ensures kept { IfErr result (KeptAtStop m.old m.new) }
    ensures outside { TransfersPages F.Files D.SwapDev (stop_of result) files.old files.new swap.old swap.new }
{
    match next_of(m, lines, taken, counted, last) {
        Next::Over => Ok(()),
        Next::Line(e) => take_line(alloc, cache, m, files, swap, lines, taken, counted, e),
        Next::Turn(pid) => take_turn(alloc, cache, m, files, swap, lines, taken, counted, pid),
    }
}

// The rest of a step and of the last mark. The answer is how many instructions are counted then.
fn get_over<F: Files, D: SwapDev>(
    alloc: Global,
    cache: &mut DecodeCache,
    m: &mut Machine,
    files: &mut F,
    swap: &mut D,
    mark: Mark,
    counted: u32,
) -> Result<u32, Stop>
    requires asks { Asks m.old (F.holds files.old) (D.blocks swap.old) }
    requires frames { 64 ≤ length m.old.kernel.place.holds }
    requires low { last_moves m.old.kernel.journal ≤ 1000000 }
    requires counted { instructions_of m.old.kernel.journal ≡ counted }
    requires under { AtSome (UnderAt m.old mark counted (F.holds files.old) (stores F.Files D.SwapDev files.old swap.old)) }
    ensures over { IfOk result (λ count. LeadsFrom (UnderAt m.old mark counted (F.holds files.old) (stores F.Files D.SwapDev files.old swap.old))
        (RestDone m.old m.new mark count (stores F.Files D.SwapDev files.new swap.new))) }
    ensures stops { IfErr result
        (StopsFrom (UnderAt m.old mark counted (F.holds files.old) (stores F.Files D.SwapDev files.old swap.old)) m.old m.new
        (stores F.Files D.SwapDev files.new swap.new)) }
    ensures on { IfOk result (λ count. StaysOn m.old m.new count) }
    ensures kept { IfErr result (KeptAtStop m.old m.new) }
    ensures outside { TransfersPages F.Files D.SwapDev (stop_of result) files.old files.new swap.old swap.new }
{
    let count = settle(m, files, swap, counted)?;
    rest(alloc, cache, m, files, swap, count, mark)
}

// Next units, as long as there are some and they have room.
fn go_further<F: Files, D: SwapDev>(
    alloc: Global,
    cache: &mut DecodeCache,
    m: &mut Machine,
    files: &mut F,
    swap: &mut D,
    mark: Mark,
    lines: &[Event],
    taken: u32,
    counted: u32,
) -> Result<(), Stop>
    requires asks { Asks m.old (F.holds files.old) (D.blocks swap.old) }
    requires frames { 64 ≤ length m.old.kernel.place.holds }
    requires low { last_moves m.old.kernel.journal ≤ 1000000 }
    requires counted { instructions_of m.old.kernel.journal ≡ counted }
    requires wide { m.old.params.journal ≤ length m.old.kernel.journal + 1 }
    requires going { AtSome (GoesAt m.old mark lines.now taken counted (F.holds files.old) (stores F.Files D.SwapDev files.old swap.old)) }
    requires few { HaveFewMoves lines.now }
    requires count { length lines.now < 2 ^ 32 }
    ensures over { OnOk result
        (LeadsFrom (GoesAt m.old mark lines.now taken counted (F.holds files.old) (stores F.Files D.SwapDev files.old swap.old))
        (RunsOut m.old m.new (stores F.Files D.SwapDev files.new swap.new))) }
    ensures stops { IfErr result (StopsFrom (GoesAt m.old mark lines.now taken counted (F.holds files.old) (stores F.Files D.SwapDev files.old swap.old))
        m.old m.new (stores F.Files D.SwapDev files.new swap.new)) }
    ensures ends { OnOk result (EndsRunning m.old m.new) }
    ensures kept { IfErr result (KeptAtStop m.old m.new) }
    ensures outside { TransfersPages F.Files D.SwapDev (stop_of result) files.old files.new swap.old swap.new }
{
    let count = get_over(alloc, cache, m, files, swap, mark, counted)?;
    pass(
        alloc,
        cache,
        m,
        files,
        swap,
        lines,
        taken,
        count,
        last_turned(mark),
    )
}

// One entry more, where the journal is full and a unit comes: whether the run is over then.
fn one_entry<F: Files, D: SwapDev>(
    alloc: Global,
    cache: &mut DecodeCache,
    m: &mut Machine,
    files: &mut F,
    swap: &mut D,
    mark: Mark,
    lines: &[Event],
    taken: u32,
    counted: u32,
) -> Result<bool, Stop>
    requires asks { Asks m.old (F.holds files.old) (D.blocks swap.old) }
    requires frames { 64 ≤ length m.old.kernel.place.holds }
    requires low { last_moves m.old.kernel.journal ≤ 1000000 }
    requires counted { instructions_of m.old.kernel.journal ≡ counted }
    requires room { length m.old.kernel.journal + 1 < 2 ^ 32 }
    requires full { AtSome (FullAt m.old mark lines.now taken counted (F.holds files.old) (stores F.Files D.SwapDev files.old swap.old)) }
    requires few { HaveFewMoves lines.now }
    requires count { length lines.now < 2 ^ 32 }
    ensures made { IfOk result (λ over. LeadsFrom (FullAt m.old mark lines.now taken counted (F.holds files.old) (stores F.Files D.SwapDev files.old swap.old))
        (EntryMade m.old m.new over (F.holds files.old) (stores F.Files D.SwapDev files.new swap.new))) }
    ensures stops { IfErr result (λ stop. (stop ≡ Stop.JournalFull → ⊥)
        × StopsFrom (FullAt m.old mark lines.now taken counted (F.holds files.old) (stores F.Files D.SwapDev files.old swap.old)) m.old m.new
        (stores F.Files D.SwapDev files.new swap.new) stop) }
    ensures params { OnOk result (m.new.params ≡ one_wider m.old.params) }
    ensures images { OnOk result (m.new.images ≡ m.old.images) }
    ensures outside { TransfersPages F.Files D.SwapDev (stop_of result) files.old files.new swap.old swap.new }
    ensures goes_on { OnOk result (CanGoOn m.new) }
{
    let entries = m.params().journal + 1;
    m.widen(entries);
    let went = go_further(alloc, cache, m, files, swap, mark, lines, taken, counted);
    m.always();
    match went {
        Ok(()) => Ok(true),
        Err(stop) => match stop {
            Stop::JournalFull => Ok(false),
            _ => Err(stop),
        },
    }
}

impl Film {
    // What is known beside the machine behind the last entry.
    fn catch_up(&mut self, lines: &[Event])
        requires running { IsRunning self.old.machine }
        requires few { (e : AnyEntry) → last_entry self.old.machine.kernel.journal ≡ Some e → self.old.counted + entry_counts e < 2 ^ 32 }
        ensures { (e : AnyEntry) → last_entry self.old.machine.kernel.journal ≡ Some e → self.new ≡ caught_up self.old lines.now e }
    {
        let Some(e) = self.machine.journal().last() else {
            return;
        };
        let counted = self.counted + counted_by(e);
        let event = lines.get(self.lines as usize).copied();
        let mark = mark_after(&self.machine, counted, event, self.mark, e);
        let taken = lines_after(self.lines, e);
        self.counted = counted;
        self.mark = mark;
        self.lines = taken;
    }

    /// Goes on by one entry, over the lines of the run, where the run isn't over.
    pub fn go_on<F: Files, D: SwapDev>(
        &mut self,
        files: &mut F,
        swap: &mut D,
        lines: &[Event],
    ) -> Result<(), Stop>
        requires filming { IsFilming self.old lines.now (F.holds files.old) (stores F.Files D.SwapDev files.old swap.old) }
        requires more { self.old.over ≡ false }
        requires room { length self.old.machine.kernel.journal + 1 < 2 ^ 32 }
        requires moves { HaveFewMoves lines.now }
        requires count { length lines.now < 2 ^ 32 }
        requires backed { IsBacked self.old.machine (F.holds files.old) (D.blocks swap.old) }
        ensures goes { OnOk result (FilmGoes self.old self.new lines.now (F.holds files.old) (stores F.Files D.SwapDev files.old swap.old)
            (stores F.Files D.SwapDev files.new swap.new)) }
        ensures stops { IfErr result (λ stop. (stop ≡ Stop.JournalFull → ⊥)
            × StopsFrom (FilmsAt self.old lines.now (F.holds files.old) (stores F.Files D.SwapDev files.old swap.old)) self.old.machine self.new.machine
            (stores F.Files D.SwapDev files.new swap.new) stop) }
        ensures params { OnOk result (self.new.machine.params ≡ one_wider self.old.machine.params) }
        ensures images { OnOk result (self.new.machine.images ≡ self.old.machine.images) }
        ensures outside { TransfersPages F.Files D.SwapDev (stop_of result) files.old files.new swap.old swap.new }
    {
        if !has_few_moves(self.machine.journal()) {
            return Err(Stop::NoMemory);
        }
        self.over = one_entry(
            self.alloc,
            &mut self.cache,
            &mut self.machine,
            files,
            swap,
            self.mark,
            lines,
            self.lines,
            self.counted,
        )?;
        self.catch_up(lines);
        Ok(())
    }
}
