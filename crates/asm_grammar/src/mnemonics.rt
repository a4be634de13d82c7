//! The mnemonics of the instruction table, in lower case, and the row that each names.
ghost use Rattle.std.specs.Prelude.{◌≡◌, ◌≤◌, find, length};
ghost use Rattle.asm_grammar.specs.Mnemonics.{mnemonic, same_text, row_named};

use vax_code::{Name, Row, rows};

/// The mnemonic of an instruction, in lower case.
pub fn mnemonic(name: Name) -> &'static [u8]
    ensures text { result.now ≡ mnemonic name }
    ensures few { length result.now ≤ 6 }
{
    match name {
        Name::Nop => b"nop",
        Name::Ret => b"ret",
        Name::Rsb => b"rsb",
        Name::Bsbb => b"bsbb",
        Name::Brb => b"brb",
        Name::Bneq => b"bneq",
        Name::Beql => b"beql",
        Name::Bgtr => b"bgtr",
        Name::Bleq => b"bleq",
        Name::Jsb => b"jsb",
        Name::Jmp => b"jmp",
        Name::Bgeq => b"bgeq",
        Name::Blss => b"blss",
        Name::Bgtru => b"bgtru",
        Name::Blequ => b"blequ",
        Name::Bvc => b"bvc",
        Name::Bvs => b"bvs",
        Name::Bcc => b"bcc",
        Name::Bcs => b"bcs",
        Name::Bsbw => b"bsbw",
        Name::Brw => b"brw",
        Name::Ashl => b"ashl",
        Name::Movb => b"movb",
        Name::Cmpb => b"cmpb",
        Name::Clrb => b"clrb",
        Name::Tstb => b"tstb",
        Name::Incb => b"incb",
        Name::Decb => b"decb",
        Name::Cvtbl => b"cvtbl",
        Name::Movzbl => b"movzbl",
        Name::Movab => b"movab",
        Name::Pushab => b"pushab",
        Name::Movw => b"movw",
        Name::Cmpw => b"cmpw",
        Name::Chmk => b"chmk",
        Name::Addl2 => b"addl2",
        Name::Addl3 => b"addl3",
        Name::Subl2 => b"subl2",
        Name::Subl3 => b"subl3",
        Name::Mull2 => b"mull2",
        Name::Mull3 => b"mull3",
        Name::Divl2 => b"divl2",
        Name::Divl3 => b"divl3",
        Name::Bisl2 => b"bisl2",
        Name::Bisl3 => b"bisl3",
        Name::Bicl2 => b"bicl2",
        Name::Bicl3 => b"bicl3",
        Name::Xorl2 => b"xorl2",
        Name::Xorl3 => b"xorl3",
        Name::Mnegl => b"mnegl",
        Name::Movl => b"movl",
        Name::Cmpl => b"cmpl",
        Name::Mcoml => b"mcoml",
        Name::Bitl => b"bitl",
        Name::Clrl => b"clrl",
        Name::Tstl => b"tstl",
        Name::Incl => b"incl",
        Name::Decl => b"decl",
        Name::Pushl => b"pushl",
        Name::Moval => b"moval",
        Name::Pushal => b"pushal",
        Name::Blbs => b"blbs",
        Name::Blbc => b"blbc",
        Name::Aoblss => b"aoblss",
        Name::Aobleq => b"aobleq",
        Name::Sobgeq => b"sobgeq",
        Name::Sobgtr => b"sobgtr",
        Name::Cvtlb => b"cvtlb",
        Name::Callg => b"callg",
        Name::Calls => b"calls",
    }
}

fn row_in(rows: &[Row], word: &[u8]) -> Option<Row>
    ensures { result ≡ find (λ row. same_text (mnemonic row.name) word.now) rows.now }
{
    rows.iter().copied().find(|row| mnemonic(row.name) == word)
}

// The row with this mnemonic.
#[tactic(auto, unfolding(crate::specs::Mnemonics::row_named))]
pub fn row_named(word: &[u8]) -> Option<Row>
    ensures { result ≡ row_named word.now }
{
    row_in(rows(), word)
}
