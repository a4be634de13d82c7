//! Compares a case's text with the recorded one, and tells the first line that differs.
use crate::cases::Reader;
use crate::devices::run_case;
use crate::running::Unfit;
use std::alloc::{AllocError, Global};

// The first line in which the texts differ, and what it is in each.
fn difference(alloc: Global, name: &str, wanted: &str, given: &str) -> Result<String, AllocError> {
    let mut others = given.lines();
    let mut number: usize = 0;
    for line in wanted.lines() {
        number = number.saturating_add(1);
        let other = others.next().unwrap_or("");
        if line != other {
            return format!(in alloc; "{name}: line {number} is {other}, and not {line}");
        }
    }
    let other = others.next().unwrap_or("");
    format!(in alloc; "{name}: behind line {number} comes {other}")
}

/// What is said of a case.
pub fn verdict(alloc: Global, case: &Reader) -> Result<String, AllocError> {
    let name = case.name.as_str();
    match run_case(alloc, case) {
        Ok(given) => {
            if given.as_str() == case.wanted.as_str() {
                format!(in alloc; "ok {name}")
            } else {
                difference(alloc, name, case.wanted.as_str(), given.as_str())
            }
        }
        Err(Unfit::NoMemory) => Err(AllocError),
        Err(unfit) => format!(in alloc; "{name}: not run, {unfit:?}"),
    }
}
