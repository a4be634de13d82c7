//! Laws that join what is so at each unit over a whole list of units, up to a journal. There is no code here.
ghost use Rattle.run_units.specs.Journals.{UnitsAreAccounted, UnitsAreEconomical, LeadsSayImage, JournalsAreLawful, JournalsAreAccounted, JournalsAreEconomical, JournalsLeaveImage};

/// Next units from a state at which a run stands are accounted for, one by one. After each, also while transfers are in
/// flight, each frame and each block of swap has one owner or is free.
pub fn units_are_accounted()
    ensures { UnitsAreAccounted }
{}

/// They are few: in the closing phase stretches are short, and few turns in a row count no instruction; and no page is
/// written to swap twice for nothing.
pub fn units_are_economical()
    ensures { UnitsAreEconomical }
{}

/// A machine that stands at a state of a run, and is led on by next units, leaves the swap image that these units say, and asked of
/// swap what they ask, in their order, and nothing else.
pub fn leads_say_image()
    ensures { LeadsSayImage }
{}

/// The same from the start of a run, where its first processes find their pieces: the journal that next units make is
/// lawful, its units are accounted for and few, and a machine that makes them leaves the swap image that the journal says.
pub fn lawful_journals()
    ensures lawful { JournalsAreLawful }
    ensures account { JournalsAreAccounted }
    ensures economy { JournalsAreEconomical }
    ensures image { JournalsLeaveImage }
{}
