// The verdict on a certificate.
ghost use Rattle.std.specs.Prelude.{◌≡◌, ◌↔◌, true, IfSome, IsNone};
ghost use Rattle.rv_core.specs.Table.{table_of};
ghost use Rattle.rv_core.specs.Images.{Image, AreLoadable};
ghost use Rattle.code_flow_system.specs.declared.cert.Mark.{Mark};
ghost use Rattle.code_flow_system.specs.Systems.{IsSystemOf};
ghost use Rattle.code_flow_system.specs.KeptRuns.{BoundsRuns};
ghost use Rattle.code_flow_system.specs.Certificates.{IsInForm, Accepts, IsGreatest, KeepsMark};
ghost use Rattle.dual_check.specs.Verdicts.{IsBound, IsFirst, IsVerdict, is_yes, is_greatest};

use crate::flows::first_flow_fault;
use crate::greatest::{has_value, is_reached};
use crate::missing::first_missing;
use crate::potentials::potential_of;
use crate::rows::first_of_moves;
use crate::signs::first_wrong_sign;
use crate::unmet::first_unmet;
use crate::{Row, Verdict};
use code_flow_system::{Cert, Mark, System};
use rv_core::Costs;

/// The first row that fails of those that every certificate has.
fn bound_fault(system: &System, costs: &Costs, cert: &Cert) -> Option<Row>
    requires { IsInForm system.now.claims cert.now }
    ensures some { IfSome result (IsFirst (table_of costs.now) system.now cert.now) }
    ensures none { IsNone result → IsBound (table_of costs.now) system.now cert.now }
{
    if let Some(at) = first_missing(system, cert) {
        return Some(Row::Missing { at });
    }
    if let Some(claim) = first_wrong_sign(system, cert) {
        return Some(Row::Sign { claim });
    }
    if let Some(row) = first_of_moves(system, costs, cert) {
        return Some(row);
    }
    if !has_value(system, cert) {
        return Some(Row::Value);
    }
    None
}

/// The first row that fails of those on the listed flow.
fn flow_fault(system: &System, costs: &Costs, cert: &Cert) -> Option<Row>
    requires form { IsInForm system.now.claims cert.now }
    requires bound { IsBound (table_of costs.now) system.now cert.now }
    requires mark { cert.now.mark ≡ Mark.Greatest }
    ensures some { IfSome result (IsFirst (table_of costs.now) system.now cert.now) }
    ensures none { IsNone result → IsGreatest (table_of costs.now) system.now cert.now }
{
    if let Some(at) = first_flow_fault(system, cert) {
        return Some(Row::Flow { at });
    }
    if let Some(claim) = first_unmet(system, cert) {
        return Some(Row::Unmet { claim });
    }
    if !is_reached(system, costs, cert) {
        return Some(Row::Greatest);
    }
    None
}

/// The first row that fails of those on the mark.
fn mark_fault(system: &System, costs: &Costs, cert: &Cert) -> Option<Row>
    requires form { IsInForm system.now.claims cert.now }
    requires bound { IsBound (table_of costs.now) system.now cert.now }
    ensures some { IfSome result (IsFirst (table_of costs.now) system.now cert.now) }
    ensures none { IsNone result → KeepsMark cert.now.mark (table_of costs.now) system.now cert.now }
{
    match cert.mark {
        Mark::Greatest => flow_fault(system, costs, cert),
        Mark::Empty => {
            if potential_of(cert, system.entry()) < 0 {
                return None;
            }
            Some(Row::Empty)
        }
        Mark::Neither => None,
    }
}

/// The first row that fails.
fn first_fault(system: &System, costs: &Costs, cert: &Cert) -> Option<Row>
    requires { IsInForm system.now.claims cert.now }
    ensures some { IfSome result (IsFirst (table_of costs.now) system.now cert.now) }
    ensures none { IsNone result → Accepts (table_of costs.now) system.now cert.now }
{
    let fault = bound_fault(system, costs, cert);
    if fault.is_some() {
        return fault;
    }
    mark_fault(system, costs, cert)
}

fn is_greatest(mark: Mark) -> bool
    ensures { result ≡ is_greatest mark }
{
    match mark {
        Mark::Greatest => true,
        Mark::Empty | Mark::Neither => false,
    }
}

/// The verdict on a certificate of a system: yes exactly where it is accepted, and else the first
/// row that fails. It takes no memory.
///
/// A yes bounds the runs of each image of which the system is the system: on every input, a
/// finished run that keeps the claims takes at most the certificate's cycles.
pub fn check(system: &System, costs: &Costs, cert: &Cert) -> Verdict
    requires { IsInForm system.now.claims cert.now }
    ensures verdict { IsVerdict (table_of costs.now) system.now cert.now result }
    ensures yes { (is_yes result ≡ true) ↔ Accepts (table_of costs.now) system.now cert.now }
    ensures within { is_yes result ≡ true → (image : Image) → AreLoadable image.segments → IsSystemOf image system.now.claims system.now → BoundsRuns image (table_of costs.now) system.now cert.now }
{
    match first_fault(system, costs, cert) {
        Some(row) => Verdict::No { row },
        None => Verdict::Yes {
            cycles: cert.cycles,
            greatest: is_greatest(cert.mark),
        },
    }
}
