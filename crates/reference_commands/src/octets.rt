//! That bytes are below 256, as code that contracts can use.
ghost use Rattle.vax_code.specs.Grammar.{AreOctets};

/// What contracts see of bytes is a list of numbers; each of them is below 256.
pub fn are_octets(bytes: &[u8])
    ensures { AreOctets bytes.now }
{}
