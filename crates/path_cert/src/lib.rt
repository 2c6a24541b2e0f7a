//! The certificate of the greatest flow that the walks of a system list, at costs and at other prices of moves (Li and Malik 1995,
//! implicit path enumeration; Schrijver 1986, linear programming duality).
//!
//! Its potentials and multipliers are those of the walks, at the costs of moves as prices. Where the entry's worth isn't
//! negative it lists the flow by the worths, and it says else that there is no flow. `specs/Best` says which flow the walks list
//! at any prices, and when it is a best one; `specs/Priced` has the prices that pay for facts, and the certificate of the walks
//! at these; `specs/Ranges` the ranges of what every certificate has. Proved, each by a call with an empty body:
//!
//! - for a system without facts whose worths are open where its flow goes, a move is made only where its price is all that the
//!   potentials fall and the limits hold ([`flows_are_slackless`]), and so the total of the flow is the worth of the entry, which no flow
//!   is above ([`values_are_reached`]), at any prices;
//! - the certificate of the walks is in form and accepted, where its numbers keep their ranges, and worths are open where the flow goes
//!   ([`certificates_are_accepted`]), as they do where no loose flow has a value of 2^60 or more, and bounds of loops can be kept
//!   ([`bounds_are_greatest`]). So its value is the greatest one of a flow, that of the flow that it lists, or there is no flow. And the
//!   same walks at other prices of moves, which are no more than their costs, fit into 128 bits, and what they list is a flow of the
//!   entry's worth, where that isn't negative ([`priced_flows_are_flows`]);
//! - a search that pays for facts walks a system at prices that the facts' multipliers make: they may be negative, and then a turn of a
//!   loop may lose and yet have to be made. Where a block is worth less than three times what loose flows can come to, the walks still
//!   find the best flow: what they list is a flow, its total is the worth of the entry, and no flow has a greater one
//!   ([`best_flows_are_found`]). A total at such prices is the value over the scale, less what the facts' totals come to
//!   ([`prices_pay_facts`]), and the potentials and multipliers of the walks, with those of the facts, are an accepted certificate where
//!   its numbers keep their ranges ([`facts_are_accepted`]), as they do where three times the size of the walks' numbers is below 2^120
//!   ([`facts_have_ranges`], [`sizes_cover_prices`]). With facts of numbers that aren't negative all this holds by bounds of loose flows
//!   alone ([`facts_are_bounded`], [`fact_flows_are_best`]), at each scale and multipliers that times one more than the loops are at most
//!   2^44 ([`fact_numbers_fit`]).
//!
//! The crate has definitions and these laws; `proofs/` has what holds of the lists of a certificate.
#![tactic(auto)]

mod laws;

pub use laws::{
    best_flows_are_found, bounds_are_greatest, certificates_are_accepted, fact_flows_are_best,
    fact_numbers_fit, facts_are_accepted, facts_are_bounded, facts_have_ranges,
    flows_are_slackless, priced_flows_are_flows, prices_pay_facts, sizes_cover_prices,
    values_are_reached,
};
