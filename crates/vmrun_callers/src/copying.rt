//! Copies of files in memory, for callers that make two calls.
ghost use Rattle.std.specs.Prelude.{◌≡◌, ◌+◌, ◌∷◌, ◌++◌, [], map, vec_len, IfOk};
ghost use Rattle.io_edge.specs.FileHolding.{named_file};

use std::alloc::{AllocError, Global};

// A file once more.
fn copy_of(alloc: Global, file: &(String, Vec<u8>)) -> Result<(String, Vec<u8>), AllocError>
    ensures { IfOk result (λ copy. named_file copy ≡ named_file file.now) }
{
    let name = file.0.as_str();
    let bytes = file.1.as_slice();
    Ok((name.to_string(alloc)?, Vec::from_slice(alloc, bytes)?))
}

/// These files once more, in their order.
#[tactic(auto, using(crate::proofs::Files::copied_more))]
pub(crate) fn copies_of(
    alloc: Global,
    files: &[(String, Vec<u8>)],
) -> Result<Vec<(String, Vec<u8>)>, AllocError>
    ensures { IfOk result (λ copies. map named_file copies.items ≡ map named_file files.now) }
{
    let mut copies = Vec::new(alloc);
    for file in files {
        copies.push(copy_of(alloc, file)?)?;
    }
    Ok(copies)
}

/// These files, and after them one of this name with these bytes.
pub(crate) fn with_file(
    alloc: Global,
    files: Vec<(String, Vec<u8>)>,
    name: &str,
    bytes: &[u8],
) -> Result<Vec<(String, Vec<u8>)>, AllocError>
    ensures files { IfOk result (λ all. map named_file all.items ≡ map named_file files.items ++ record { name = name.now; bytes = bytes.now } ∷ []) }
    ensures count { IfOk result (λ all. vec_len all ≡ vec_len files + 1) }
{
    let mut all = files;
    all.push((name.to_string(alloc)?, Vec::from_slice(alloc, bytes)?))?;
    Ok(all)
}
