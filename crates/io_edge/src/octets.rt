//! That names and bytes of files are below 256, as code that contracts can use.
ghost use Rattle.std.specs.Prelude.{map};
ghost use Rattle.vm_facts.specs.Octets.{AreOctets};
ghost use Rattle.io_edge.specs.FileHolding.{named_file};
ghost use Rattle.io_edge.specs.Octets.{IsOctetFile, AreOctetFiles};

fn are_octets(bytes: &[u8])
    ensures { AreOctets bytes.now }
{}

fn is_octet_file(name: &String, bytes: &Vec<u8>)
    ensures { IsOctetFile (named_file (name.now, bytes.now)) }
{
    are_octets(name.as_bytes());
    are_octets(bytes.as_slice());
}

/// The names and the bytes of files have numbers below 256. It moves nothing, and says so of what
/// `SureFiles` and `MemFiles` are made of.
#[tactic(auto, using(crate::proofs::OctetFiles::octets_more))]
pub fn are_octet_files(files: &[(String, Vec<u8>)])
    ensures { AreOctetFiles (map named_file files.now) }
{
    for file in files {
        is_octet_file(&file.0, &file.1);
    }
}
