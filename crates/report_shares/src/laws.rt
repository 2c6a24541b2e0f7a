// What shares that fit add up to.
ghost use Rattle.std.specs.Prelude.{◌≡◌};
ghost use Rattle.frac128.specs.Terms.{int_sum_by};
ghost use Rattle.rv_core.specs.Table.{table_of};
ghost use Rattle.code_flow_system.specs.Flows.{value};
ghost use Rattle.code_flow_system.specs.Certificates.{listed};
ghost use Rattle.report_shares.specs.Shares.{SharesFit};

use code_flow_system::{Flow, System};
use report_text::Share;
use rv_core::Costs;

/// A law: the parts of shares that fit a listed flow add up to its value, both over its unit.
pub fn shares_add_up(_system: &System, _costs: &Costs, _flow: &Flow, _shares: &[Share])
    requires { SharesFit (table_of _costs.now) _system.now _flow.now.parts _shares.now }
    ensures { int_sum_by (λ h. h.part) _shares.now ≡ value (table_of _costs.now) _system.now (listed _flow.now.parts) }
{}
