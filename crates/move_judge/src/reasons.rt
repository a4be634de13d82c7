//! Of several reasons the first that holds. So the order in which callers ask may not change.
ghost use Rattle.std.specs.Prelude.{◌≡◌};
ghost use Rattle.paged_model.specs.Reasons.{unless, or_reason};

use paged_model::Reason;

/// This reason, unless the condition holds.
pub fn unless(holds: bool, reason: Reason) -> Option<Reason>
    ensures { result ≡ unless holds reason }
{
    if holds { None } else { Some(reason) }
}

/// The first of two reasons.
pub fn or_reason(first: Option<Reason>, other: Option<Reason>) -> Option<Reason>
    ensures { result ≡ or_reason first other }
{
    match first {
        Some(reason) => Some(reason),
        None => other,
    }
}
