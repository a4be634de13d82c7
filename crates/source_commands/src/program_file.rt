//! The file of a program: its header, and its bytes after it.
ghost use Rattle.std.specs.Prelude.{◌≡◌, ◌≤◌, IfOk, length};
ghost use Rattle.source_commands.specs.ProgramFile.{program_file};

use aout_image::{Image, Kind, write_image};
use std::alloc::{AllocError, Global};
use vax_asm::Program;

/// The file of a program: an image of kind 0413.
pub fn file_of(alloc: Global, program: &Program) -> Result<Vec<u8>, AllocError>
    requires { length program.now.bytes.items ≤ 65536 }
    ensures { IfOk result (λ file. file.items ≡ program_file program.now.bytes.items program.now.bss) }
{
    let text_len = program.bytes.len().max(1).div_ceil(1024) * 1024;
    let image = Image {
        kind: Kind::Paged,
        text_len: text_len as u32,
        data_len: 0,
        bss_len: program.bss,
        entry: 0,
    };
    let mut header = [0; 32];
    write_image(&image, &mut header);
    let mut file = Vec::from_slice(alloc, &header)?;
    file.resize(1024, 0)?;
    file.extend_from_slice(program.bytes.as_slice())?;
    file.resize(1024 + text_len, 0)?;
    Ok(file)
}
