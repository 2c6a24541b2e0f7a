// What chosen items take.
ghost use Rattle.spm_placement.specs.Placings.{NumbersTake};

/// The items that have the numbers of some of them take what these do, where no two have one number.
pub fn numbers_take()
    ensures { NumbersTake }
{}
