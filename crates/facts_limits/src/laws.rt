// What is proved, by calls with empty bodies.
ghost use Rattle.facts_limits.specs.Names.{NamesFit};
ghost use Rattle.facts_limits.specs.Restrictions.{RestrictionsAreLimited};

/// The names of a source have no more bytes than it, all together.
pub fn names_fit()
    ensures { NamesFit }
{}

/// The restrictions of a source are few, and of few and small terms.
pub fn restrictions_are_limited()
    ensures { RestrictionsAreLimited }
{}
