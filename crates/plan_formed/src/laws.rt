// The law of elements.
ghost use Rattle.plan_formed.specs.Elements.{PlansHaveElements};

/// The arrays of the plan of a source that fails no rule have elements.
pub fn plans_have_elements()
    ensures { PlansHaveElements }
{}
