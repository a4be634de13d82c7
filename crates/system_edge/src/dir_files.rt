//! The files of the current folder, as a run asks for them by name. One that changes after it was found is a fault.
ghost use Rattle.std.specs.Prelude.{◌≡◌, ◌+◌, Some, ◌≤◌, ◌<◌, ◌^◌, IfOk, OnOk, IfSome, OnErr, map, length, position, bytes_eq, get_or, refl, replicate};
ghost use Rattle.std.proofs.Common.{le_refl, le_trans, ◌∙◌};
ghost use Rattle.io_edge.specs.FileHolding.{AnswersName, HasRange, HoldsRange, IsKnown};
ghost use Rattle.io_edge.specs.FileRequests.{no_notes};
ghost use Rattle.system_edge.specs.Named.{name_in, names_in, seen_told};
ghost use Rattle.system_edge.specs.Places.{FitNames, IsAnswered, IsPut, KeepsPlaces, SamePlaces, known_at, known_in};
ghost use Rattle.system_edge.specs.declared.place.Place.TheVariants.{Unsought};
ghost use Rattle.system_edge.specs.OneProof.{FitNames-prop};
ghost use Rattle.system_edge.specs.PlaceLaws.{places_apart, places_itself, places_through, led_same, led_stays};

use crate::Refusal;
use crate::place::{Place, seek};
use io_edge::{Files, Found, Moved, raised};
use std::alloc::{AllocError, Global};
use std::io;
use std::io::ErrorKind;
use system_calls::{System, SystemFile};

// Why a call on a file failed.
#[derive(Drop)]
struct Fault {
    name: String,
    error: io::Error,
}

// The fault of the file of this name, where there is memory for the name.
fn fault_of(alloc: Global, name: &str, error: io::Error) -> Option<Fault> {
    let name = String::from_str(alloc, name).ok()?;
    Some(Fault { name, error })
}

// The name in a word: without the equals sign with which it may begin.
fn name_in(word: &str) -> &str
    ensures { result.now ≡ name_in word.now }
{
    match word.strip_prefix('=') {
        Some(name) => name,
        None => word,
    }
}

// Whether this is the name in a word.
fn is_in(word: &str, name: &str) -> bool
    ensures { result ≡ bytes_eq (name_in word.now) name.now }
{
    name_in(word) == name
}

// The first word that is this name.
fn word_of(words: &[&str], name: &str) -> Option<usize>
    ensures { result ≡ position (λ word. bytes_eq word.now name.now) words.now }
{
    words.iter().position(|word| *word == name)
}

// The first word that this name is in.
fn word_with(words: &[&str], name: &str) -> Option<usize>
    ensures { result ≡ position (λ word. bytes_eq (name_in word.now) name.now) words.now }
{
    words.iter().position(|word| is_in(word, name))
}

// A place as a number, where it is one of 32 bits.
fn numbered(place: usize) -> Option<u32>
    ensures { IfSome result (λ number. number ≡ place) }
{
    u32::try_from(place).ok()
}

// The number of a name: its first place among the words, or else behind them, among the names in the words.
fn number_of(words: &[&str], name: &str) -> Option<u32>
    ensures { IfSome result (λ number. position (λ other. bytes_eq other name.now) (names_in words.now) ≡ Some number) }
{
    match word_of(words, name) {
        Some(place) => numbered(place),
        None => {
            let place = word_with(words, name)?;
            numbered(words.len() + place)
        }
    }
}

// The name of this number.
fn name_of<'w>(words: &[&'w str], number: usize) -> Option<&'w str> {
    if number < words.len() {
        return words.get(number).copied();
    }
    let word = words.get(number - words.len())?;
    Some(name_in(word))
}

// What is known at the place of this number.
fn known_of<F: SystemFile + Drop>(places: &[Place<F>], number: u32) -> Option<Found>
    ensures { result ≡ known_at number (get_or places.now number Unsought) }
{
    places.get(number as usize)?.known(number)
}

// Puts what is known of a name into its place, where there is memory for the places before it. What is known of others stays.
fn put_place<F: Drop>(
    places: &mut Vec<Place<F>>,
    number: usize,
    place: Place<F>,
) -> Result<(), AllocError>
    ensures put { OnOk result (IsPut places.old.items number place places.new.items) }
    ensures failed { OnErr result (SamePlaces places.old.items places.new.items) }
{
    grow(places, number)?;
    if number < places.len() {
        places[number] = place;
        return Ok(());
    }
    places.push(place)?;
    Ok(())
}

// Places at which nothing is known are put behind others, until there are so many at least.
fn grow<F: Drop>(places: &mut Vec<Place<F>>, count: usize) -> Result<(), AllocError>
    ensures same { SamePlaces places.old.items places.new.items }
    ensures long { OnOk result (count ≤ length places.new.items) }
{
    for _ in places.len()..count {
        places.push(Place::Unsought)?;
    }
    Ok(())
}

/// The files of the current folder of a system that words may name: a word names the file of its name, and, where it begins with an
/// equals sign, that of the name behind it. The number of a file is the first place of its name in the list of both. A plain file that
/// was found stays open, and locked against whoever wants it alone, as a swap device does. Every later read of it fails where its length
/// or the time of its last change isn't what it was then. What isn't a plain file, and what has the length 0 by the system, as
/// a pipe, is read to its end when it is found, and kept in memory. Of each file 67,108,865 bytes are seen. What was found of a name,
/// or that there is no such file, is what it is at each later call. A name that no word names can't be found. Where the system
/// tells what the folder holds, the files are told.
#[derive(Drop)]
pub struct DirFiles<'r, S: System> {
    alloc: Global,
    system: &'r S,
    words: &'r [&'r str],
    places: Vec<Place<S::File>>,
    fault: Option<Fault>,
    open_faults: u64,
    page_faults: u64,
    ghost fits: { FitNames S.File.SystemFile (S.folder system.now) (names_in words.now) places.items } by { FitNames-prop S.File.SystemFile (S.folder system.now) (names_in words.now) places.items },
}

impl<'r, S: System> DirFiles<'r, S> {
    /// The files that these words may name, before the first call.
    pub fn new(alloc: Global, system: &'r S, words: &'r [&'r str]) -> DirFiles<'r, S>
        ensures holds { ⟦<DirFiles<'r, S> as Files>⟧.holds result ≡ seen_told (S.folder system.now) (names_in words.now) }
        ensures open_faults { ⟦<DirFiles<'r, S> as Files>⟧.open_faults result ≡ 0 }
        ensures page_faults { ⟦<DirFiles<'r, S> as Files>⟧.page_faults result ≡ 0 }
    {
        DirFiles {
            alloc,
            system,
            words,
            places: Vec::new(alloc),
            fault: None,
            open_faults: 0,
            page_faults: 0,
        }
    }

    /// Why the last call that failed did. None too where there was no memory for its name.
    pub fn last_refusal(&self) -> Option<Refusal<'_>> {
        match &self.fault {
            Some(fault) => Some(Refusal {
                name: fault.name.as_str(),
                error: fault.error,
            }),
            None => None,
        }
    }

    // What is known of the name of this number; where nothing is, the file is sought.
    fn learn(&mut self, number: u32, name: &str) -> io::Result<Found>
        requires { position (λ other. bytes_eq other name.now) (names_in self.old.words.now) ≡ Some number }
        ensures answer { IfOk result (λ found. AnswersName (seen_told (S.folder self.old.system.now) (names_in self.old.words.now)) name.now found) }
        ensures known { IfOk result (λ found. known_at number (get_or self.new.places.items number Unsought) ≡ Some found) }
        ensures keeps { KeepsPlaces self.old.places.items self.new.places.items }
        ensures same { self.new.system ≡ self.old.system }
        ensures words { self.new.words ≡ self.old.words }
        ensures open_faults { self.new.open_faults ≡ self.old.open_faults }
        ensures page_faults { self.new.page_faults ≡ self.old.page_faults }
    {
        if let Some(found) = known_of(&self.places, number) {
            return Ok(found);
        }
        let place = seek(self.alloc, self.system, name)?;
        let Some(found) = place.known(number) else {
            return Err(io::Error::from(ErrorKind::NotFound));
        };
        put_place(&mut self.places, number as usize, place)?;
        Ok(found)
    }

    // What there is of this name.
    fn look(&mut self, name: &str) -> io::Result<Found>
        ensures answer { IfOk result (λ found. AnswersName (seen_told (S.folder self.old.system.now) (names_in self.old.words.now)) name.now found) }
        ensures known { IfOk result (λ found. IsKnown (known_in (names_in self.old.words.now) self.new.places.items) name.now found) }
        ensures found { IfOk result (λ found. IsAnswered found) }
        ensures keeps { KeepsPlaces self.old.places.items self.new.places.items }
        ensures same { self.new.system ≡ self.old.system }
        ensures words { self.new.words ≡ self.old.words }
        ensures open_faults { self.new.open_faults ≡ self.old.open_faults }
        ensures page_faults { self.new.page_faults ≡ self.old.page_faults }
    {
        match number_of(self.words, name) {
            Some(number) => self.learn(number, name),
            None => Err(io::Error::from(ErrorKind::NotFound)),
        }
    }

    // Fills the buffer from this offset of a file on.
    fn fill(&self, id: u32, offset: u64, buf: &mut [u8]) -> io::Result<()>
        requires { HasRange (seen_told (S.folder self.now.system.now) (names_in self.now.words.now)) id offset (length buf.old) }
        ensures { OnOk result (HoldsRange (seen_told (S.folder self.now.system.now) (names_in self.now.words.now)) id offset buf.new) }
    {
        match self.places.get(id as usize) {
            Some(place) => place.read(offset, buf),
            None => Err(io::Error::from(ErrorKind::NotFound)),
        }
    }

    // Keeps why a call on a file failed.
    fn note(&mut self, id: u32, error: io::Error)
        ensures places { self.new.places ≡ self.old.places }
        ensures same { self.new.system ≡ self.old.system }
        ensures words { self.new.words ≡ self.old.words }
        ensures open_faults { self.new.open_faults ≡ self.old.open_faults }
        ensures page_faults { self.new.page_faults ≡ self.old.page_faults }
    {
        self.fault = match name_of(self.words, id as usize) {
            Some(name) => fault_of(self.alloc, name, error),
            None => None,
        };
    }
}

impl<S: System> Files for DirFiles<'_, S> {
    ghost holds = { λ f. seen_told (S.folder f.system.now) (names_in f.words.now) };

    ghost known = { λ f. known_in (names_in f.words.now) f.places.items };

    ghost notes = { λ _. no_notes };

    ghost open_faults = { λ f. f.open_faults };

    ghost page_faults = { λ f. f.page_faults };

    ghost leads = { λ a b. (b.system ≡ a.system) × (b.words ≡ a.words) × KeepsPlaces a.places.items b.places.items
        × (a.open_faults ≤ b.open_faults) × (a.page_faults ≤ b.page_faults) };

    fn find(&mut self, name: &str) -> Found {
        match self.look(name) {
            Ok(found) => found,
            Err(error) => {
                self.fault = fault_of(self.alloc, name, error);
                self.open_faults = raised(self.open_faults);
                Found::Failed
            }
        }
    }

    fn read_at(&mut self, id: u32, offset: u64, buf: &mut [u8]) -> Moved {
        let Err(error) = self.fill(id, offset, buf) else {
            return Moved::Done;
        };
        self.note(id, error);
        if offset == 0 {
            self.open_faults = raised(self.open_faults);
        } else {
            self.page_faults = raised(self.page_faults);
        }
        Moved::Failed
    }

    ghost leads_nowhere = { λ f. (refl, refl, places_itself f.places.items, le_refl f.open_faults, le_refl f.page_faults) };

    ghost leads_through = { λ a b c first then. (
      then.0 ∙ first.0,
      then.1 ∙ first.1,
      places_through a.places.items b.places.items c.places.items first.2 then.2,
      le_trans first.3 then.3,
      le_trans first.4 then.4,
    ) };

    ghost leads_same = { λ a b led. led_same S.folder a.system b.system a.words b.words led.0 led.1 };

    ghost known_stays = { λ a b led. led_stays a.words b.words a.places.items b.places.items led.1 led.2 };

    ghost known_apart = { λ f. places_apart (names_in f.words.now) f.places.items };

    ghost open_grows = { λ _ _ led. led.3 };

    ghost page_grows = { λ _ _ led. led.4 };
}
