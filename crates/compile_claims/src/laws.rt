// The laws of claims that are handed on.
ghost use Rattle.compile_claims.specs.ClaimLaws.{BoundsAreSame, NoCodeIsSame, NoneIsBad, RunsKeepSame, SystemsAreSame};

/// An image has the same system under the claims that are handed on.
pub fn systems_are_same()
    ensures { SystemsAreSame }
{}

/// None of these claims is bad where none was, the addresses of restrictions are aligned, and those that are never visited ascend.
pub fn none_is_bad()
    ensures { NoneIsBad }
{}

/// What is reached and no code under them is so without them.
pub fn no_code_is_same()
    ensures { NoCodeIsSame }
{}

/// A search can be made in the system as well, where the restrictions come to little.
pub fn bounds_are_same()
    ensures { BoundsAreSame }
{}

/// A run keeps the claims as well where it visits no address that is never visited, and keeps the restrictions.
pub fn runs_keep_same()
    ensures { RunsKeepSame }
{}
