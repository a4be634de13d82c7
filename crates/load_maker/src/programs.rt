//! The sources of a load's two programs, made from its number, and their assembled files.
ghost use Rattle.std.specs.Prelude.{◌≡◌, ◌≤◌, ◌<◌, ◌*◌, ℕ, List, IfOk, string_bytes};
ghost use Rattle.vax_asm.specs.Program.{IsProgramOf};
ghost use Rattle.source_commands.specs.ProgramFile.{program_file};
ghost use Rattle.load_maker.specs.Programs.{w_source, w_bytes, v_source, v_bytes};
ghost use Rattle.load_maker.specs.Load.{w_bss, v_bss, HasNoBadLine};

use source_commands::file_of;
use std::alloc::{AllocError, Global};
use vax_asm::{Assembled, assemble};
use vm_facts::NoMemory;

// The source of `w`.
#[tactic(auto, unfolding(crate::specs::Programs::w_source))]
fn w_source(alloc: Global, pages: u32) -> Result<String, AllocError>
    requires { pages < 65 }
    ensures { IfOk result (λ source. string_bytes source ≡ w_source pages) }
{
    let end = 1024 + 1024 * pages;
    format!(in alloc;
        ".bss 8192
.word 0
moval *$grown,r12
chmk $17
chmk $2
blbs r1,child
movl $30,r3
round: movl i^$0x400,r4
movl i^${pages},r5
change: incl (r4)
addl2 i^$0x400,r4
sobgtr r5,change
sobgtr r3,round
chmk i^$84
moval *$written,r12
chmk $4
moval *$code,r12
chmk $1
child: moval *$run,r12
chmk $59
chmk $1
.space 79
grown: .long 1
.long {end}
written: .long 3
.long 1
.long text
.long 2
code: .long 1
.long 0
run: .long 3
.long name
.long 0
.long 0
name: .byte 0x76
.byte 0
.space 14
text: .byte 0x77
.byte 0x0a
"
    )
}

// The source of `v`.
#[tactic(auto, unfolding(crate::specs::Programs::v_source))]
fn v_source(alloc: Global, pages: u32) -> Result<String, AllocError>
    requires { pages < 65 }
    ensures { IfOk result (λ source. string_bytes source ≡ v_source pages) }
{
    let zeros = 1024 * pages;
    format!(in alloc;
        ".bss {zeros}
.word 0
movl $30,r3
round: movl i^$0x400,r4
movl i^${pages},r5
change: incl (r4)
addl2 i^$0x400,r4
sobgtr r5,change
sobgtr r3,round
moval *$written,r12
chmk $4
moval *$code,r12
chmk $1
.space 116
written: .long 3
.long 1
.long text
.long 2
code: .long 1
.long 0
.space 32
text: .byte 0x76
.byte 0x0a
"
    )
}

// The file of the program that a good source makes.
fn file_from(alloc: Global, source: &str) -> Result<Vec<u8>, NoMemory>
    requires { HasNoBadLine source.now }
    ensures { (bytes : List ℕ) (bss : ℕ) → IsProgramOf source.now bytes bss → IfOk result (λ file. file.items ≡ program_file bytes bss) }
{
    match assemble(alloc, source.as_bytes())? {
        Assembled::Is(program) => Ok(file_of(alloc, &program)?),
        Assembled::BadLine(_) => unreachable!(),
    }
}

// The file of `w`.
pub fn w_file(alloc: Global, pages: u32) -> Result<Vec<u8>, NoMemory>
    requires { (40 ≤ pages) × (pages < 65) }
    ensures { IfOk result (λ file. file.items ≡ program_file (w_bytes pages) w_bss) }
{
    let source = w_source(alloc, pages)?;
    file_from(alloc, source.as_str())
}

// The file of `v`.
pub fn v_file(alloc: Global, pages: u32) -> Result<Vec<u8>, NoMemory>
    requires { (40 ≤ pages) × (pages < 65) }
    ensures { IfOk result (λ file. file.items ≡ program_file (v_bytes pages) (v_bss pages)) }
{
    let source = v_source(alloc, pages)?;
    file_from(alloc, source.as_str())
}
