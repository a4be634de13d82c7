//! The law that an assembled program is a good image. There is no code here.
ghost use Rattle.std.specs.Prelude.{◌≡◌, ◌≤◌, ℕ, List, length, Ok};
ghost use Rattle.aout_image.specs.Image.{judged_image, file_length_of};
ghost use Rattle.vax_asm.specs.Program.{IsProgramOf};
ghost use Rattle.source_commands.specs.ProgramFile.{program_facts, program_file, program_image};

/// The file of each program that a source makes is an image of kind 0413 that begins at 0: none of the reasons to
/// refuse a file holds. Its text is the program's bytes, with zeros after them up to a whole page, and at least one
/// page; its data are the zeros that the source asks for, up to a whole page. The file ends where its text does. A
/// source makes at most 65,536 bytes, and asks for at most 4,194,304 zeros.
pub fn programs_are_images()
    ensures image { (source bytes : List ℕ) (bss : ℕ) → IsProgramOf source bytes bss → judged_image (program_file bytes bss) ≡ Ok (program_image bytes bss) }
    ensures ends { (bytes : List ℕ) (bss : ℕ) → length (program_file bytes bss) ≡ file_length_of (program_facts bytes bss) }
    ensures limits { (source bytes : List ℕ) (bss : ℕ) → IsProgramOf source bytes bss → (length bytes ≤ 65536) × (bss ≤ 4194304) }
{}
