//! The commands, and how the words after the program's name are read as one. Words that ask for no command are told
//! of in reasons.rt.
ghost use Rattle.std.specs.Prelude.{◌≡◌, ◌≤◌, ℕ, List, drop, map, IsSome, IfSome};
ghost use Rattle.std.specs.Option.{option_map};
ghost use Rattle.command_edge.specs.ImageWords.{IsShortName};
ghost use Rattle.command_words.specs.Asked.{Asked, request_of, request_in, asked_of, asked_run, asked_other, asked_load, asked_replay, asked_assemble, asked_show, asked_optimum, asked_owners, asked_film, asked_grade, machine_numbers, asked_with_trace, asked_trace_owners, asked_repage, owners_first, where_plain, Repage, film_steps, quarter_ahead, so_far_ahead, each_of_several, compared_on, asked_policies, asked_with_run, run_numbers, Curve, Stats, References};
ghost use Rattle.command_words.specs.Command.{word_list, asked_by, AreAllowed, AreImageWords, AreSteps, IsFittingComparison, IsFittingRun, IsFitting};
ghost use Rattle.command_words.specs.declared.limits.TheConstants.{MOST_LIMIT, MOST_SHORT_LIMIT};

use crate::image_words::{ImageWords, from_place, has_trace};
use crate::limits::{
    JOURNAL_ENTRIES, LAST_LOAD, LEAST_FRAMES, LEAST_SWAP, MOST_COMPARED, MOST_FRAMES, MOST_LIMIT,
    MOST_SHORT_LIMIT, MOST_SWAP,
};
use crate::word::{is_name, read_number, starts};

/// The numbers of a run (this project's profile).
#[derive(Clone, Copy, Debug, PartialEq, Eq, Drop)]
pub struct Numbers {
    /// The page frames of the machine: 64 to 4,096.
    pub frames: u32,
    /// The blocks of 512 bytes of the swap device: 256 to 131,072.
    pub swap: u32,
    /// The most instructions that may run in all: 1 to 1,000,000, but at most 100,000 for `opt` and `curve`.
    pub limit: u32,
}

/// The steps of a film (this project's profile): after how many entries of a journal each is.
#[derive(Clone, Copy, Debug, PartialEq, Eq, Drop)]
pub struct FilmSteps {
    /// The first: 0 to 16,777,216.
    pub from: u32,
    /// None is behind this: 0 to 16,777,216.
    pub to: u32,
    /// How many entries lie between one and the next: 1 to 16,777,216.
    pub every: u32,
}

/// The numbers of frames with which policies of replacement are compared (this project's profile).
#[derive(Clone, Copy, Debug, PartialEq, Eq, Drop)]
pub enum Comparison {
    /// One number, 1 to 1,000,000. Of the clock with two hands the front hand is so many frames ahead, which are fewer.
    At { frames: u32, spread: u32 },
    /// Several numbers: the first, 1 to 1,000,000; the one behind which there is none, from the first to 1,000,000; and how
    /// many lie between one and the next, 1 to 1,000,000.
    Sweep { from: u32, to: u32, every: u32 },
}

/// What the words after the program's name ask for, with the numbers and the names in them (this project's
/// profile). A word of an image is a name, which starts a process, or one after a `=`, which only makes the image
/// known. All names have 1 to 63 bytes.
#[derive(Clone, Copy, Debug, Drop)]
pub enum Command<'a> {
    /// `run [--trace] FRAMES SWAP LIMIT SCHED IMAGE..`: a run, whose transcript has its paging entries where it is
    /// traced.
    Run {
        traced: bool,
        numbers: Numbers,
        schedule: &'a str,
        images: ImageWords<'a>,
    },
    /// `load NUMBER`: a run that loads the machine, which is made of a number from 0 to 9,999.
    Load {
        number: u32,
    },
    /// `replay TRANSCRIPT IMAGE..`: a transcript is judged as a run of these images.
    Replay {
        transcript: &'a str,
        images: &'a [&'a str],
    },
    /// `as SOURCE`: an image is made of a source.
    Assemble {
        source: &'a str,
    },
    /// `dis IMAGE`: the instructions of an image are listed.
    Show {
        image: &'a str,
    },
    /// `opt N FRAMES SWAP LIMIT SCHED IMAGE..`: the fewest page faults that any replacement with 1 to 4,096 frames
    /// has on the references of a run.
    Optimum {
        size: u32,
        numbers: Numbers,
        schedule: &'a str,
        images: &'a [&'a str],
    },
    /// `curve FRAMES SWAP LIMIT SCHED IMAGE..`: the page faults of least-recently-used replacement with each number
    /// of frames, on the references of a run.
    Curve {
        numbers: Numbers,
        schedule: &'a str,
        images: &'a [&'a str],
    },
    /// `owners N FRAMES SWAP LIMIT SCHED IMAGE..`: what each frame, page, transfer and piece of swap belongs to after
    /// the first 0 to 16,777,216 entries of a run's journal.
    Owners {
        entries: u32,
        numbers: Numbers,
        schedule: &'a str,
        images: &'a [&'a str],
    },
    /// `film FROM TO EVERY FRAMES SWAP LIMIT SCHED IMAGE..`: the same after each of several numbers of entries, in one run.
    Film {
        steps: FilmSteps,
        numbers: Numbers,
        schedule: &'a str,
        images: &'a [&'a str],
    },
    /// `stats FRAMES SWAP LIMIT SCHED IMAGE..`: the counts of a run.
    Stats {
        numbers: Numbers,
        schedule: &'a str,
        images: &'a [&'a str],
    },
    /// `refs FRAMES SWAP LIMIT SCHED IMAGE..`: the references of a run.
    References {
        numbers: Numbers,
        schedule: &'a str,
        images: &'a [&'a str],
    },
    /// `grade FRAMES SWAP LIMIT SCHED TRACE IMAGE..`: a trace is compared with the journal of a run.
    Grade {
        numbers: Numbers,
        schedule: &'a str,
        trace: &'a str,
        images: &'a [&'a str],
    },
    /// `repage FRAMES SWAP TRACE IMAGE..`: a trace is judged as a run of the paged machine, by any policy. The limit is the most that may be.
    Repage {
        numbers: Numbers,
        trace: &'a str,
        images: &'a [&'a str],
    },
    /// `repage --owners N FRAMES SWAP TRACE IMAGE..`: what each frame, page, transfer and piece of swap belongs to after the first 0 to
    /// 16,777,216 entries of such a trace.
    RepageOwners {
        entries: u32,
        numbers: Numbers,
        trace: &'a str,
        images: &'a [&'a str],
    },
    /// `policies N FILE`, `policies N hands SPREAD FILE` or `policies FROM TO EVERY FILE`: the page faults that policies of
    /// replacement have on the references of a file.
    Policies {
        comparison: Comparison,
        references: &'a str,
    },
}

/// Reads the words after the program's name. They are one of
///
/// - `run [--trace] FRAMES SWAP LIMIT SCHED IMAGE..`, where `--trace` may stand at any place after `run`
/// - `load NUMBER`, `replay TRANSCRIPT IMAGE..`, `as SOURCE`, `dis IMAGE`
/// - `opt N FRAMES SWAP LIMIT SCHED IMAGE..`, `curve FRAMES SWAP LIMIT SCHED IMAGE..`
/// - `owners N FRAMES SWAP LIMIT SCHED IMAGE..`, `film FROM TO EVERY FRAMES SWAP LIMIT SCHED IMAGE..`
/// - `stats FRAMES SWAP LIMIT SCHED IMAGE..`, `refs FRAMES SWAP LIMIT SCHED IMAGE..`
/// - `grade FRAMES SWAP LIMIT SCHED TRACE IMAGE..`
/// - `repage FRAMES SWAP TRACE IMAGE..`, `repage --owners N FRAMES SWAP TRACE IMAGE..`
/// - `policies N FILE`, where the front hand is a quarter of the frames ahead, `policies N hands SPREAD FILE`,
///   `policies FROM TO EVERY FILE`
///
/// and it is `None` where they are any others. No other word begins with `-` or is empty. A number has 1 to 8 ASCII
/// digits, leading zeros among them: FRAMES is 64 to 4,096, SWAP 256 to 131,072, LIMIT 1 to 1,000,000 but at most
/// 100,000 for `opt` and `curve`, NUMBER 0 to 9,999, N 1 to 4,096 for `opt`, 1 to 1,000,000 for `policies` and 0 to
/// 16,777,216 for `owners` and `repage`. FROM and TO of `film` are 0 to 16,777,216, and its EVERY 1 to 16,777,216. FROM and EVERY of
/// `policies` are 1 to 1,000,000, TO is FROM to 1,000,000, and SPREAD 0 to N - 1. A name has 1 to 63 bytes. There are 1 to 16
/// words of images: a name starts a process, and one after a `=` only makes the
/// image known; at least one starts. The image of `dis` has no `=`. It takes no memory. Source: this project's profile.
pub fn read_words<'a>(words: &'a [&'a str]) -> Option<Command<'a>>
    ensures exact { option_map asked_by result ≡ asked_of (map (λ word. word.now) words.now) }
    ensures request { request_in (option_map asked_by result) ≡ request_of (map (λ word. word.now) words.now) }
    ensures fits { IfSome result IsFitting }
{
    read_command(words)
}

// The words, the name of a command first.
#[tactic(auto, unfolding(crate::specs::Asked::asked_of))]
fn read_command<'a>(words: &'a [&'a str]) -> Option<Command<'a>>
    ensures exact { option_map asked_by result ≡ asked_of (map (λ word. word.now) words.now) }
    ensures fits { IfSome result IsFitting }
{
    let [name, words @ ..] = words else {
        return None;
    };
    if *name == "run" {
        read_run(words)
    } else if *name == "repage" {
        read_repage(words)
    } else {
        read_other(name, words)
    }
}

// The words after `run`.
#[tactic(auto, unfolding(crate::specs::Asked::asked_run))]
fn read_run<'a>(words: &'a [&'a str]) -> Option<Command<'a>>
    ensures exact { option_map asked_by result ≡ asked_run (map (λ word. word.now) words.now) }
    ensures fits { IfSome result IsFitting }
{
    let kept = ImageWords::without_trace(words);
    if !kept.are_plain() {
        return None;
    }
    let head = RunHead::of(kept, MOST_LIMIT)?;
    Some(Command::Run {
        traced: has_trace(words),
        numbers: head.numbers,
        schedule: head.schedule,
        images: kept.from(4),
    })
}

// The words after the name of another command.
#[tactic(auto, unfolding(crate::specs::Asked::asked_other))]
fn read_other<'a>(name: &str, words: &'a [&'a str]) -> Option<Command<'a>>
    ensures exact { option_map asked_by result ≡ asked_other name.now (map (λ word. word.now) words.now) }
    ensures fits { IfSome result IsFitting }
{
    if !ImageWords::all(words).are_plain() {
        return None;
    }
    match name {
        "load" => read_load(words),
        "replay" => read_replay(words),
        "as" => read_assemble(words),
        "dis" => read_show(words),
        "opt" => read_optimum(words),
        "curve" => read_curve(words),
        "owners" => read_owners(words),
        "film" => read_film(words),
        "stats" => read_stats(words),
        "refs" => read_references(words),
        "grade" => read_grade(words),
        "policies" => read_policies(words),
        _ => None,
    }
}

#[tactic(auto, unfolding(crate::specs::Asked::asked_load))]
fn read_load<'a>(words: &[&str]) -> Option<Command<'a>>
    ensures exact { option_map asked_by result ≡ asked_load (map (λ word. word.now) words.now) }
    ensures fits { IfSome result IsFitting }
{
    let [number] = words else {
        return None;
    };
    Some(Command::Load {
        number: read_number(number, 0, LAST_LOAD)?,
    })
}

#[tactic(auto, unfolding(crate::specs::Asked::asked_replay))]
fn read_replay<'a>(words: &'a [&'a str]) -> Option<Command<'a>>
    ensures exact { option_map asked_by result ≡ asked_replay (map (λ word. word.now) words.now) }
    ensures fits { IfSome result IsFitting }
{
    let [transcript, images @ ..] = words else {
        return None;
    };
    if is_name(transcript) && ImageWords::all(images).are_image_words() {
        Some(Command::Replay { transcript, images })
    } else {
        None
    }
}

#[tactic(auto, unfolding(crate::specs::Asked::asked_assemble))]
fn read_assemble<'a>(words: &[&'a str]) -> Option<Command<'a>>
    ensures exact { option_map asked_by result ≡ asked_assemble (map (λ word. word.now) words.now) }
    ensures fits { IfSome result IsFitting }
{
    let [source] = words else {
        return None;
    };
    if is_name(source) {
        Some(Command::Assemble { source })
    } else {
        None
    }
}

#[tactic(auto, unfolding(crate::specs::Asked::asked_show))]
fn read_show<'a>(words: &[&'a str]) -> Option<Command<'a>>
    ensures exact { option_map asked_by result ≡ asked_show (map (λ word. word.now) words.now) }
    ensures fits { IfSome result IsFitting }
{
    let [image] = words else {
        return None;
    };
    if is_name(image) && starts(image) {
        Some(Command::Show { image })
    } else {
        None
    }
}

#[tactic(auto, unfolding(crate::specs::Asked::asked_optimum))]
fn read_optimum<'a>(words: &'a [&'a str]) -> Option<Command<'a>>
    ensures exact { option_map asked_by result ≡ asked_optimum (map (λ word. word.now) words.now) }
    ensures fits { IfSome result IsFitting }
{
    let [size, words @ ..] = words else {
        return None;
    };
    let size = read_number(size, 1, MOST_FRAMES)?;
    let head = RunHead::of(ImageWords::all(words), MOST_SHORT_LIMIT)?;
    Some(Command::Optimum {
        size,
        numbers: head.numbers,
        schedule: head.schedule,
        images: from_place(words, 4),
    })
}

fn read_curve<'a>(words: &'a [&'a str]) -> Option<Command<'a>>
    ensures exact { option_map asked_by result ≡ asked_with_run MOST_SHORT_LIMIT Curve (map (λ word. word.now) words.now) }
    ensures fits { IfSome result IsFitting }
{
    let head = RunHead::of(ImageWords::all(words), MOST_SHORT_LIMIT)?;
    Some(Command::Curve {
        numbers: head.numbers,
        schedule: head.schedule,
        images: from_place(words, 4),
    })
}

#[tactic(auto, unfolding(crate::specs::Asked::asked_owners))]
fn read_owners<'a>(words: &'a [&'a str]) -> Option<Command<'a>>
    ensures exact { option_map asked_by result ≡ asked_owners (map (λ word. word.now) words.now) }
    ensures fits { IfSome result IsFitting }
{
    let [entries, words @ ..] = words else {
        return None;
    };
    let entries = read_number(entries, 0, JOURNAL_ENTRIES)?;
    let head = RunHead::of(ImageWords::all(words), MOST_LIMIT)?;
    Some(Command::Owners {
        entries,
        numbers: head.numbers,
        schedule: head.schedule,
        images: from_place(words, 4),
    })
}

#[tactic(auto, unfolding(crate::specs::Asked::film_steps, crate::specs::Asked::all_steps))]
fn read_steps(from: &str, to: &str, every: &str) -> Option<FilmSteps>
    ensures exact { result ≡ film_steps from.now to.now every.now }
    ensures allowed { IfSome result AreSteps }
{
    Some(FilmSteps {
        from: read_number(from, 0, JOURNAL_ENTRIES)?,
        to: read_number(to, 0, JOURNAL_ENTRIES)?,
        every: read_number(every, 1, JOURNAL_ENTRIES)?,
    })
}

#[tactic(auto, unfolding(crate::specs::Asked::asked_film))]
fn read_film<'a>(words: &'a [&'a str]) -> Option<Command<'a>>
    ensures exact { option_map asked_by result ≡ asked_film (map (λ word. word.now) words.now) }
    ensures fits { IfSome result IsFitting }
{
    let [from, to, every, words @ ..] = words else {
        return None;
    };
    let steps = read_steps(from, to, every)?;
    let head = RunHead::of(ImageWords::all(words), MOST_LIMIT)?;
    Some(Command::Film {
        steps,
        numbers: head.numbers,
        schedule: head.schedule,
        images: from_place(words, 4),
    })
}

fn read_stats<'a>(words: &'a [&'a str]) -> Option<Command<'a>>
    ensures exact { option_map asked_by result ≡ asked_with_run MOST_LIMIT Stats (map (λ word. word.now) words.now) }
    ensures fits { IfSome result IsFitting }
{
    let head = RunHead::of(ImageWords::all(words), MOST_LIMIT)?;
    Some(Command::Stats {
        numbers: head.numbers,
        schedule: head.schedule,
        images: from_place(words, 4),
    })
}

fn read_references<'a>(words: &'a [&'a str]) -> Option<Command<'a>>
    ensures exact { option_map asked_by result ≡ asked_with_run MOST_LIMIT References (map (λ word. word.now) words.now) }
    ensures fits { IfSome result IsFitting }
{
    let head = RunHead::of(ImageWords::all(words), MOST_LIMIT)?;
    Some(Command::References {
        numbers: head.numbers,
        schedule: head.schedule,
        images: from_place(words, 4),
    })
}

#[tactic(auto, unfolding(crate::specs::Asked::asked_grade))]
fn read_grade<'a>(words: &'a [&'a str]) -> Option<Command<'a>>
    ensures exact { option_map asked_by result ≡ asked_grade (map (λ word. word.now) words.now) }
    ensures fits { IfSome result IsFitting }
{
    let [_, _, _, _, trace, images @ ..] = words else {
        return None;
    };
    if !is_name(trace) {
        return None;
    }
    let head = RunHead::of(ImageWords::without_fifth(words), MOST_LIMIT)?;
    Some(Command::Grade {
        numbers: head.numbers,
        schedule: head.schedule,
        trace,
        images,
    })
}

// The numbers of a machine that judges a trace: the most instructions may run.
#[tactic(auto, unfolding(crate::specs::Asked::machine_numbers, crate::specs::Asked::both_numbers))]
fn read_machine(frames: &str, swap: &str) -> Option<Numbers>
    ensures exact { result ≡ machine_numbers frames.now swap.now }
    ensures allowed { IfSome result AreAllowed }
    ensures limit { IfSome result (λ numbers. numbers.limit ≡ MOST_LIMIT) }
{
    Some(Numbers {
        frames: read_number(frames, LEAST_FRAMES, MOST_FRAMES)?,
        swap: read_number(swap, LEAST_SWAP, MOST_SWAP)?,
        limit: MOST_LIMIT,
    })
}

// The words of a trace that is judged.
#[derive(Clone, Copy, Drop)]
struct TraceHead<'a> {
    numbers: Numbers,
    trace: &'a str,
    images: &'a [&'a str],
}

// Reads `FRAMES SWAP TRACE IMAGE..`.
#[tactic(auto, unfolding(crate::specs::Asked::asked_with_trace))]
fn read_traced<'a>(words: &'a [&'a str]) -> Option<TraceHead<'a>>
    ensures exact { (command : Numbers → List ℕ → List (List ℕ) → Asked)
        → option_map (λ head. command head.numbers head.trace.now (map (λ word. word.now) head.images.now)) result
        ≡ asked_with_trace command (map (λ word. word.now) words.now) }
    ensures fits { IfSome result (λ head. (head.numbers.limit ≡ MOST_LIMIT) × IsFittingRun MOST_LIMIT head.numbers head.trace head.images.now) }
{
    let [frames, swap, trace, images @ ..] = words else {
        return None;
    };
    if is_name(trace) && ImageWords::all(images).are_image_words() {
        Some(TraceHead {
            numbers: read_machine(frames, swap)?,
            trace,
            images,
        })
    } else {
        None
    }
}

// `FRAMES SWAP TRACE IMAGE..`
fn read_judged<'a>(words: &'a [&'a str]) -> Option<Command<'a>>
    ensures exact { option_map asked_by result ≡ where_plain (asked_with_trace Repage) (map (λ word. word.now) words.now) }
    ensures fits { IfSome result IsFitting }
{
    if !ImageWords::all(words).are_plain() {
        return None;
    }
    let head = read_traced(words)?;
    Some(Command::Repage {
        numbers: head.numbers,
        trace: head.trace,
        images: head.images,
    })
}

// `N FRAMES SWAP TRACE IMAGE..`
#[tactic(auto, unfolding(crate::specs::Asked::asked_trace_owners))]
fn read_trace_owners<'a>(words: &'a [&'a str]) -> Option<Command<'a>>
    ensures exact { option_map asked_by result ≡ where_plain asked_trace_owners (map (λ word. word.now) words.now) }
    ensures fits { IfSome result IsFitting }
{
    if !ImageWords::all(words).are_plain() {
        return None;
    }
    let [entries, words @ ..] = words else {
        return None;
    };
    let entries = read_number(entries, 0, JOURNAL_ENTRIES)?;
    let head = read_traced(words)?;
    Some(Command::RepageOwners {
        entries,
        numbers: head.numbers,
        trace: head.trace,
        images: head.images,
    })
}

// Whether the first word is `--owners`.
pub(crate) fn owners_first(words: &[&str]) -> bool
    ensures { result ≡ owners_first (map (λ word. word.now) words.now) }
{
    match words {
        [] => false,
        [word, ..] => *word == "--owners",
    }
}

// The words after `repage`.
#[tactic(auto, unfolding(crate::specs::Asked::asked_repage))]
fn read_repage<'a>(words: &'a [&'a str]) -> Option<Command<'a>>
    ensures exact { option_map asked_by result ≡ asked_repage (map (λ word. word.now) words.now) }
    ensures fits { IfSome result IsFitting }
{
    if owners_first(words) {
        read_trace_owners(from_place(words, 1))
    } else {
        read_judged(words)
    }
}

// `N`, where the front hand is a quarter of the frames ahead.
#[tactic(auto, unfolding(crate::specs::Asked::quarter_ahead))]
fn read_frames(frames: &str) -> Option<Comparison>
    ensures exact { result ≡ quarter_ahead frames.now }
    ensures fits { IfSome result IsFittingComparison }
{
    let frames = read_number(frames, 1, MOST_COMPARED)?;
    Some(Comparison::At {
        frames,
        spread: frames / 4,
    })
}

// `N` and `SPREAD`.
#[tactic(auto, unfolding(crate::specs::Asked::so_far_ahead))]
fn read_spread(frames: &str, spread: &str) -> Option<Comparison>
    ensures exact { result ≡ so_far_ahead frames.now spread.now }
    ensures fits { IfSome result IsFittingComparison }
{
    let frames = read_number(frames, 1, MOST_COMPARED)?;
    let spread = read_number(spread, 0, frames - 1)?;
    Some(Comparison::At { frames, spread })
}

// `FROM TO EVERY` of a comparison.
#[tactic(auto, unfolding(crate::specs::Asked::each_of_several))]
fn read_sweep(from: &str, to: &str, every: &str) -> Option<Comparison>
    ensures exact { result ≡ each_of_several from.now to.now every.now }
    ensures fits { IfSome result IsFittingComparison }
{
    let from = read_number(from, 1, MOST_COMPARED)?;
    let to = read_number(to, from, MOST_COMPARED)?;
    let every = read_number(every, 1, MOST_COMPARED)?;
    Some(Comparison::Sweep { from, to, every })
}

// A comparison on the references of a file.
#[tactic(auto, unfolding(crate::specs::Asked::compared_on))]
fn compare_on<'a>(comparison: Option<Comparison>, references: &'a str) -> Option<Command<'a>>
    requires { IfSome comparison IsFittingComparison }
    ensures exact { option_map asked_by result ≡ compared_on references.now comparison }
    ensures fits { IfSome result IsFitting }
{
    if is_name(references) {
        Some(Command::Policies {
            comparison: comparison?,
            references,
        })
    } else {
        None
    }
}

#[tactic(auto, unfolding(crate::specs::Asked::asked_policies))]
fn read_policies<'a>(words: &[&'a str]) -> Option<Command<'a>>
    ensures exact { option_map asked_by result ≡ asked_policies (map (λ word. word.now) words.now) }
    ensures fits { IfSome result IsFitting }
{
    if let [frames, references] = words {
        return compare_on(read_frames(frames), references);
    }
    let [first, second, third, references] = words else {
        return None;
    };
    if *second == "hands" {
        compare_on(read_spread(first, third), references)
    } else {
        compare_on(read_sweep(first, second, third), references)
    }
}

#[tactic(auto, unfolding(crate::specs::Asked::run_numbers, crate::specs::Asked::all_numbers))]
fn read_numbers(frames: &str, swap: &str, limit: &str, most: u32) -> Option<Numbers>
    requires { most ≤ MOST_LIMIT }
    ensures exact { result ≡ run_numbers most frames.now swap.now limit.now }
    ensures allowed { IfSome result AreAllowed }
    ensures limit { IfSome result (λ numbers. numbers.limit ≤ most) }
{
    Some(Numbers {
        frames: read_number(frames, LEAST_FRAMES, MOST_FRAMES)?,
        swap: read_number(swap, LEAST_SWAP, MOST_SWAP)?,
        limit: read_number(limit, 1, most)?,
    })
}

// The words of a run before those of its images.
#[derive(Clone, Copy, Drop)]
struct RunHead<'a> {
    numbers: Numbers,
    schedule: &'a str,
}

impl<'a> RunHead<'a> {
    // Reads `FRAMES SWAP LIMIT SCHED IMAGE..`, with a limit up to `most`.
    fn of(words: ImageWords<'a>, most: u32) -> Option<Self>
        requires { most ≤ MOST_LIMIT }
        ensures exact { (command : Numbers → List ℕ → List (List ℕ) → Asked)
            → option_map (λ head. command head.numbers head.schedule.now (drop 4 (map (λ word. word.now) (word_list words.entry)))) result
            ≡ asked_with_run most command (map (λ word. word.now) (word_list words.entry)) }
        ensures allowed { IfSome result (λ head. AreAllowed head.numbers) }
        ensures limit { IfSome result (λ head. head.numbers.limit ≤ most) }
        ensures named { IfSome result (λ head. IsShortName head.schedule.now) }
        ensures images { IsSome result → AreImageWords (drop 4 (word_list words.entry)) }
    {
        let schedule = words.word(3);
        if is_name(schedule) && words.from(4).are_image_words() {
            Some(RunHead {
                numbers: read_numbers(words.word(0), words.word(1), words.word(2), most)?,
                schedule,
            })
        } else {
            None
        }
    }
}
