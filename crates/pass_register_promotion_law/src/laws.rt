// The laws of scalars in registers.
ghost use Rattle.pass_register_promotion_law.specs.Laws.{PromotedCarries, PromotedCostsNoMore, PromotedIsLow};

/// Each good run is a good run with scalars in registers.
pub fn promoted_carries()
    ensures { PromotedCarries }
{}

/// A program with scalars in registers keeps to the low form.
pub fn promoted_is_low()
    ensures { PromotedIsLow }
{}

/// It executes no more instructions.
pub fn promoted_costs_no_more()
    ensures { PromotedCostsNoMore }
{}
