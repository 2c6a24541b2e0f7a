ghost use Rattle.high_renumber.specs.Keeping.{KeptIsLawful};

/// A pass is lawful that makes a loose program which keeps the old one, and renumbers it.
pub fn renumbered_is_lawful()
    ensures { KeptIsLawful }
{}
