//! The images of a run, found in bytes at hand, and cut into the segments of a new space.
ghost use Rattle.std.specs.Prelude.{◌≡◌, ◌↔◌, ℕ, ◌+◌, ◌-◌, ◌*◌, ◌^◌, ◌<◌, ◌≤◌, ◌++◌, ◌∷◌, [], List, length, take, drop, slice_get, string_bytes, bytes_eq, min, All, IfOk, OnOk, Ok, true, false, IsTrue, is_ok, IsSome, Some};
ghost use Rattle.aout_image.specs.Image.{Loaded, IsSound, judged_image, loaded, in_pages, text_offset, text_given, data_given, text_pages_of, image_data_pages, file_length_of};
ghost use Rattle.flat_state.specs.Flat.{NamedImage, image_numbered};
ghost use Rattle.flat_process.specs.Images.{FlatFile, IsImageFile, AreNumbers, images_of, IsFit, IsNumbered};

use aout_image::{Image, Judged, Kind, read_image};
use std::alloc::Global;
use std::marker::Model;
use vm_facts::NoMemory;

/// An image by its name, and the front of its file: as many bytes as its text and data need. Contracts see
/// the bytes of both.
#[derive(Drop)]
pub struct Flat {
    pub name: String,
    pub bytes: Vec<u8>,
}

impl Model for Flat {
    ghost use Rattle.std.specs.Prelude.{string_bytes};
    ghost use Rattle.flat_process.specs.Images.{FlatFile};

    ghost Value = { FlatFile };

    ghost view = { λ f. record { name = string_bytes f.name; bytes = f.bytes.items } };
}

/// An image as a new space has it. Contracts see it with its name, and nothing else.
#[derive(Drop)]
pub struct Program {
    name: Vec<u8>,
    facts: Image,
    text: Vec<u8>,
    data: Vec<u8>,
}

impl Model for Program {
    ghost use Rattle.flat_state.specs.Flat.{NamedImage};
    ghost use Rattle.flat_process.specs.Images.{IsFit};

    ghost Value = { NamedImage };

    ghost view = { λ p. record { name = p.name.items; image = record { facts = p.facts; text = p.text.items; «data» = p.data.items } } };

    ghost invariant = { λ p. IsFit (record { name = p.name.items; image = record { facts = p.facts; text = p.text.items; «data» = p.data.items } }) };
}

// Where the text begins in the file.
fn text_start(image: &Image) -> usize
    ensures { result ≡ text_offset image.now }
{
    match image.kind {
        Kind::Paged => 1024,
        Kind::Impure | Kind::Shared => 32,
    }
}

// The bytes that the file gives to the text segment.
fn text_len(image: &Image) -> usize
    ensures { result ≡ text_given image.now }
{
    match image.kind {
        Kind::Impure => 0,
        Kind::Shared | Kind::Paged => image.text_len as usize,
    }
}

// The bytes that the file gives to the data segment.
fn data_len(image: &Image) -> usize
    ensures { result ≡ data_given image.now }
{
    match image.kind {
        Kind::Impure => image.text_len as usize + image.data_len as usize,
        Kind::Shared | Kind::Paged => image.data_len as usize,
    }
}

// So many bytes of a file from an offset on, and zeros after them to whole pages.
fn segment(
    alloc: Global,
    bytes: &[u8],
    offset: usize,
    given: usize,
    pages: u32,
) -> Result<Vec<u8>, NoMemory>
    requires within { offset + given ≤ length bytes.now }
    requires fits { given ≤ 1024 * pages }
    requires few { pages < 2 ^ 16 }
    ensures { IfOk result (λ v. v.items ≡ in_pages pages (take given (drop offset bytes.now))) }
{
    let end = offset + given;
    let Ok(mut segment) = Vec::from_slice(alloc, &bytes[offset..end]) else {
        return Err(NoMemory);
    };
    if segment.resize(1024 * pages as usize, 0).is_err() {
        return Err(NoMemory);
    }
    Ok(segment)
}

// The front of a file by which its image is judged.
fn head(bytes: &[u8]) -> &[u8]
    ensures value { result.now ≡ take 32 bytes.now }
    ensures len { length result.now ≡ min 32 (length bytes.now) }
{
    if bytes.len() < 32 {
        bytes
    } else {
        &bytes[..32]
    }
}

// The image with these facts, of this file.
#[tactic(auto, unfolding(aout_image::specs::Image::loaded))]
fn load_as(alloc: Global, flat: &Flat, facts: Image) -> Result<Program, NoMemory>
    requires sound { IsSound facts }
    requires image { judged_image flat.now.bytes ≡ Ok (loaded facts flat.now.bytes) }
    requires whole { file_length_of facts ≤ length flat.now.bytes }
    requires short { length flat.now.name < 64 }
    ensures { IfOk result (λ p. p ≡ record { name = flat.now.name; image = loaded facts flat.now.bytes }) }
{
    let bytes = flat.bytes.as_slice();
    let start = text_start(&facts);
    let given = text_len(&facts);
    let text = segment(alloc, bytes, start, given, facts.text_pages())?;
    let data = segment(
        alloc,
        bytes,
        start + given,
        data_len(&facts),
        facts.data_pages(),
    )?;
    let Ok(name) = Vec::from_slice(alloc, flat.name.as_bytes()) else {
        return Err(NoMemory);
    };
    Ok(Program {
        name,
        facts,
        text,
        data,
    })
}

fn load(alloc: Global, flat: &Flat) -> Result<Program, NoMemory>
    requires { IsImageFile flat.now }
    ensures { IfOk result (λ p. images_of (flat.now ∷ []) ≡ p ∷ []) }
{
    let bytes = flat.bytes.as_slice();
    match read_image(head(bytes), bytes.len() as u64) {
        Judged::Is(facts) => {
            let program = load_as(alloc, flat, facts)?;
            Ok(program)
        }
        Judged::NotImage(_) => unreachable!(),
    }
}

/// The images as new spaces have them, in their order.
pub fn load_all(alloc: Global, images: &[Flat]) -> Result<Vec<Program>, NoMemory>
    requires { All IsImageFile images.now }
    ensures { IfOk result (λ v. v.items ≡ images_of images.now) }
{
    let mut programs = Vec::new(alloc);
    for image in images {
        let program = load(alloc, image)?;
        if programs.push(program).is_err() {
            return Err(NoMemory);
        }
    }
    Ok(programs)
}

fn same(some: &[u8], other: &[u8]) -> bool
    ensures { result ≡ bytes_eq some.now other.now }
{
    some == other
}

// Whether this is an image, whose name is short enough.
fn is_image(flat: &Flat) -> bool
    ensures { IsTrue result ↔ IsImageFile flat.now }
{
    let bytes = flat.bytes.as_slice();
    match read_image(head(bytes), bytes.len() as u64) {
        Judged::Is(_) => flat.name.len() < 64,
        Judged::NotImage(_) => false,
    }
}

/// Whether each of these is an image, whose name has at most 63 bytes.
pub fn are_images(images: &[Flat]) -> bool
    ensures { IsTrue result ↔ All IsImageFile images.now }
{
    images.iter().all(is_image)
}

/// Whether each of these is a number of so many images, which count from 1.
pub fn are_numbers(images: usize, first: &[u32]) -> bool
    ensures { IsTrue result ↔ AreNumbers images first.now }
{
    first
        .iter()
        .all(|number| (1..=images).contains(&(*number as usize)))
}

/// The number, from 1 on, of the image of this name.
pub fn numbered(programs: &[Program], name: &[u8]) -> Option<u32>
    requires { length programs.now < 2 ^ 31 }
    ensures { IsNumbered programs.now name.now result }
{
    for place in 0..programs.len() {
        if same(programs[place].name(), name) {
            return Some(place as u32 + 1);
        }
    }
    None
}

/// The image of this number, which counts from 1.
pub fn program_at(programs: &[Program], number: u32) -> &Program
    requires { IsSome (image_numbered programs.now number) }
    ensures { image_numbered programs.now number ≡ Some result.now }
{
    &programs[number as usize - 1]
}

impl Program {
    /// Its name.
    pub fn name(&self) -> &[u8]
        ensures value { result.now ≡ self.now.name }
        ensures fit { IsFit self.now }
    {
        self.name.as_slice()
    }

    /// The address of its entry mask.
    pub fn entry(&self) -> u32
        ensures value { result ≡ self.now.image.facts.entry }
        ensures fit { IsFit self.now }
    {
        self.facts.entry
    }

    /// The bytes of its text.
    pub fn text(&self) -> &[u8]
        ensures value { result.now ≡ self.now.image.text }
        ensures fit { IsFit self.now }
    {
        self.text.as_slice()
    }

    /// The bytes of its data.
    pub fn data(&self) -> &[u8]
        ensures value { result.now ≡ self.now.image.«data» }
        ensures fit { IsFit self.now }
    {
        self.data.as_slice()
    }
}
