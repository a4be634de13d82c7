//! How many transfers may be in flight at once. Pager and definitions share the number.
/// How many transfers may be in flight at once (this project's profile).
pub const MOST_IN_FLIGHT: u32 = 16;
