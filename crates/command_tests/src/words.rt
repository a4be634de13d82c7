//! Tests of command lines: which words ask for which command, and which word is refused first.
use crate::fixtures::{says, says_nothing};
use command_words::{Command, Numbers, explain_words, read_words};
use std::alloc::Global;
use std::process::Abort;

// Checks the names of a run of two images.
fn has_names(rt: &impl Abort, schedule: &str, images: &[&str]) {
    assert_eq!(rt; (schedule, images), ("s", ["hi", "=v"].as_slice()));
}

#[test]
fn a_run_has_its_option_its_numbers_and_its_names(rt: HostRuntime) {
    let words = ["run", "64", "--trace", "256", "100", "s", "hi", "=v"];
    let Some(
        Command::Run {
            traced,
            numbers,
            schedule,
            images,
        },
    ) = read_words(&words)
    else {
        panic!(&rt; "bad words");
    };
    let wanted = Numbers {
        frames: 64,
        swap: 256,
        limit: 100,
    };
    assert_eq!(rt; (traced, numbers), (true, wanted));
    let images = images.to_vec(rt.alloc()).expect(&rt, "memory for names");
    has_names(&rt, schedule, images.as_slice());
}

#[test]
fn a_load_has_its_number(rt: HostRuntime) {
    assert!(rt;
        matches!(
            read_words(&["load", "07"]),
            Some(Command::Load { number: 7 })
        )
    );
}

// Command lines that are good; one space parts two words.
static GOOD: [&str; 29] = [
    // The option stands at any place after the first word, but once.
    "run --trace 64 256 100 s hi",
    "run 64 256 100 s a --trace b",
    "run 64 256 100 s hi --trace",
    // Numbers in their ranges.
    "run 00000064 256 1000000 s hi",
    "curve 4096 131072 100000 s hi",
    "opt 4096 64 256 100000 s hi",
    "refs 64 256 1000000 s hi",
    "owners 0 64 256 1000000 s hi",
    "owners 16777216 64 256 100 s hi",
    "film 16777216 0 1 64 256 1000000 s hi",
    "grade 64 256 1000000 s t hi",
    "grade 4096 131072 1 s s =hi hi",
    "repage 64 256 t hi",
    "repage 4096 131072 t =hi hi",
    "repage --owners 0 64 256 t hi",
    "repage --owners 16777216 64 256 t hi",
    // The three forms of one command.
    "policies 1000000 references",
    "policies 8 hands",
    "policies 8 hands 7 references",
    "policies 1 hands 0 hands",
    "policies 1 1000000 1000000 references",
    "policies 8 8 1 hands",
    // Names of files.
    "as xxxxxxxxxxxxxxxxxxxxxxxxxxxxxxxxxxxxxxxxxxxxxxxxxxxxxxxxxxxxxxx",
    "dis hi",
    "replay t hi =-x",
    // Sixteen images.
    "replay t 1 2 3 4 5 6 7 8 9 10 11 12 13 14 15 16",
    "load 07",
    "load 9999",
    "curve 64 256 100 s hi",
];

static BAD: [&str; 65] = [
    "",
    "--trace run 64 256 100 s hi",
    "run --trace 64 --trace 256 100 s hi",
    "run -- 64 256 100 s hi",
    "curve --trace 64 256 100 s hi",
    "run 000000064 256 100 s hi",
    "run 63 256 100 s hi",
    "run 4097 256 100 s hi",
    "run 64 255 100 s hi",
    "run 64 131073 100 s hi",
    "run 64 256 0 s hi",
    "run 64 256 1000001 s hi",
    "stats 64 256 1000001 s hi",
    "refs 64 256 1000001 s hi",
    "policies 0 references",
    "policies 1000001 references",
    "policies 8 hands references",
    "policies 8 hands 8 references",
    "policies 0 hands 0 references",
    "policies 1000001 hands 0 references",
    "policies 8 hands 7 references more",
    "policies 8 spread 7 references",
    "policies 8 7 1 references",
    "policies 0 8 1 references",
    "policies 8 1000001 1 references",
    "policies 8 16 0 references",
    "run +64 256 100 s hi",
    "curve 64 256 100001 s hi",
    "opt 0 64 256 100 s hi",
    "opt 4097 64 256 100 s hi",
    "opt 1 64 256 100001 s hi",
    "owners 16777217 64 256 100 s hi",
    "owners 64 256 100 s hi",
    "film 0 9 0 64 256 100 s hi",
    "film 16777217 9 1 64 256 100 s hi",
    "film 0 16777217 1 64 256 100 s hi",
    "film 0 9 16777217 64 256 100 s hi",
    "film 0 9 64 256 100 s hi",
    "grade 64 256 1000001 s t hi",
    "grade 63 256 100 s t hi",
    "grade 64 256 100 s t",
    "grade 64 256 100 s",
    "grade 64 256 100 s t =hi",
    "repage 63 256 t hi",
    "repage 64 131073 t hi",
    "repage 64 256 t",
    "repage 64 256 t =hi",
    "repage 64 256 -t hi",
    "repage --owners 16777217 64 256 t hi",
    "repage --owners 64 256 t hi",
    "repage 64 --owners 256 t hi",
    "repage --owners --owners 0 64 256 t hi",
    "load 10000",
    "load",
    "as xxxxxxxxxxxxxxxxxxxxxxxxxxxxxxxxxxxxxxxxxxxxxxxxxxxxxxxxxxxxxxxx",
    "as ",
    "dis =hi",
    "dis hi hi",
    "replay t hi -x",
    "replay t hi =",
    "replay t =hi =v",
    "replay t",
    "replay t 1 2 3 4 5 6 7 8 9 10 11 12 13 14 15 16 17",
    "as",
    "run",
];

// The words of a line, which one space parts.
fn words_of<'a>(rt: &impl Abort, alloc: Global, line: &'a str) -> Vec<&'a str> {
    let mut words = Vec::new(alloc);
    for word in line.split(' ') {
        words.push(word).expect(rt, "memory for a word");
    }
    words
}

// Checks whether the words of this line ask for a command.
fn ask(rt: &impl Abort, alloc: Global, line: &str, good: bool) {
    let words = words_of(rt, alloc, line);
    assert_eq!(rt; read_words(words.as_slice()).is_some(), good, "{line}");
}

#[test]
fn words_ask_for_a_command_or_for_none(rt: HostRuntime) {
    assert!(rt; read_words(&[]).is_none());
    for line in GOOD.iter() {
        ask(&rt, rt.alloc(), line, true);
    }
    for line in BAD.iter() {
        ask(&rt, rt.alloc(), line, false);
    }
}

// The words of a line, and what is told of the first that is refused.
static ROWS: [(&str, &[u8]); 14] = [
    ("run 63 256 100 s hi", b"FRAMES is 63: 64 to 4096"),
    ("policies 0 r", b"N is 0: 1 to 1000000"),
    ("policies x hands 8 r", b"N is x: 1 to 1000000"),
    ("policies 8 hands 8 r", b"SPREAD is 8: 0 to 7"),
    (
        "policies 8 hands 7",
        b"FILE is missing: a name of 1 to 63 bytes",
    ),
    ("policies 8 hands 7 r s", b"s is a word too many"),
    ("policies 0 8 1 r", b"FROM is 0: 1 to 1000000"),
    ("policies 8 7 1 r", b"TO is 7: 8 to 1000000"),
    ("policies 8 16 r", b"EVERY is r: 1 to 1000000"),
    (
        "grade 64 256 100 s",
        b"TRACE is missing: a name of 1 to 63 bytes",
    ),
    ("repage 64 t hi", b"SWAP is t: 256 to 131072"),
    ("repage --owners x 64 256 t hi", b"N is x: 0 to 16777216"),
    (
        "repage 64 256 --owners hi",
        b"--owners is no option of this command",
    ),
    ("policies 8 16 4 r -s", b"-s is no option of this command"),
];

// The line that is told of the words of a line, where one is.
fn told_of(rt: &impl Abort, alloc: Global, line: &str) -> Option<Vec<u8>> {
    let words = words_of(rt, alloc, line);
    explain_words(alloc, words.as_slice()).expect(rt, "memory for a line")
}

#[test]
fn the_first_word_that_is_refused_is_told(rt: HostRuntime) {
    for (line, reason) in ROWS.iter() {
        let told = told_of(&rt, rt.alloc(), line);
        says(&rt, told, b"vmrun: ", reason);
    }
    let told = told_of(&rt, rt.alloc(), "as ring.s");
    says_nothing(&rt, told);
}
