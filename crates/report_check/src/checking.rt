// The check of an image and a report.
ghost use Rattle.std.specs.Prelude.{◌≡◌, ◌↔◌, List, ℕ, true, Some, IsNone, IfSome, IfOk, IfErr, IsOk, IsErrOf, ◌⊎◌, MatchResult};
ghost use Rattle.report_check.specs.declared.verdict.Cause.TheVariants as causes;
ghost use Rattle.rv_core.specs.Images.{Image, AreLoadable};
ghost use Rattle.rv_core.specs.Table.{Table, table_of};
ghost use Rattle.elf_image.specs.Loading.{IsLoadable, image_of};
ghost use Rattle.code_flow_system.specs.Systems.{IsSystemOf};
ghost use Rattle.report_shares.specs.Shares.{SharesFit};
ghost use Rattle.report_shares.specs.Faults.{share_fault};
ghost use Rattle.report_check.specs.Checks.{IsTextOf, AreRead, HaveSystem, TellsShares, IsAccepted, IsChecked, StopsAt};

use crate::causes::{code_cause, image_cause, report_cause};
use crate::reading::read_text;
use crate::verdict::{Cause, Checked};
use code_flow::system;
use code_flow_system::{Mark, System};
use dual_check::{Verdict, check};
use report_shares::share_fault;
use report_text::Report;
use rv_core::{Costs, Image};
use std::alloc::Global;

fn read_image(alloc: Global, bytes: &[u8]) -> Result<Image, Cause>
    ensures ok { IfOk result (λ i. IsLoadable bytes.now × (i ≡ image_of bytes.now)) }
    ensures err { IfErr result (λ cause. (t : Table) (text : List ℕ) → StopsAt t bytes.now text cause) }
{
    match elf_image::read(alloc, bytes) {
        Ok(image) => Ok(image),
        Err(fault) => Err(image_cause(fault)),
    }
}

#[tactic(auto, using(crate::proofs::CheckLemmas::stops_at_report))]
fn read_report(alloc: Global, text: &[u8]) -> Result<Report, Cause>
    ensures ok { IfOk result (IsTextOf text.now) }
    ensures err { IfErr result (λ cause. (t : Table) (image : List ℕ) → IsLoadable image → StopsAt t image text.now cause) }
{
    match read_text(alloc, text) {
        Ok(report) => Ok(report),
        Err(fault) => Err(report_cause(fault)),
    }
}

#[tactic(auto, using(crate::proofs::CheckLemmas::stops_at_code))]
fn find_system(alloc: Global, image: &Image, report: &Report) -> Result<System, Cause>
    ensures ok { IfOk result (IsSystemOf image.now report.now.claims) }
    ensures err { IfErr result (λ cause. (t : Table) (bytes text : List ℕ) → image.now ≡ image_of bytes → AreRead bytes text report.now → StopsAt t bytes text cause) }
{
    match system(alloc, image, &report.claims) {
        Ok(system) => Ok(system),
        Err(fault) => Err(code_cause(fault)),
    }
}

// Whether a report says how its bound is shared.
fn tells_shares(report: &Report) -> bool
    ensures { (result ≡ true) ↔ TellsShares report.now }
{
    if report.version != 2 {
        return false;
    }
    matches!(report.cert.mark, Mark::Greatest)
}

// The first address at which the shares of a report that tells them don't fit.
#[tactic(auto, using(crate::proofs::CheckLemmas::proper, crate::proofs::CheckLemmas::not_fit))]
fn shares_fault(system: &System, costs: &Costs, report: &Report) -> Option<u32>
    ensures some { IfSome result (λ at. TellsShares report.now × (share_fault (table_of costs.now) system.now report.now.cert.flow.parts report.now.shares ≡ Some at)
        × ¬ SharesFit (table_of costs.now) system.now report.now.cert.flow.parts report.now.shares) }
    ensures none { IsNone result → TellsShares report.now → SharesFit (table_of costs.now) system.now report.now.cert.flow.parts report.now.shares }
{
    if !tells_shares(report) {
        return None;
    }
    match share_fault(system, costs, &report.cert.flow, report.shares.as_slice()) {
        Some(at) => Some(at),
        None => None,
    }
}

// The bound of a report whose system was found.
#[tactic(auto, using(crate::proofs::CheckLemmas::form_of, crate::proofs::CheckLemmas::failed_row, crate::proofs::CheckLemmas::not_accepted, crate::proofs::CheckLemmas::failed_share))]
fn check_system(costs: &Costs, system: &System, report: &Report) -> Result<Checked, Cause>
    requires claims { system.now.claims ≡ report.now.claims }
    ensures ok { IfOk result (λ c. (image : Image) (bytes text : List ℕ) → AreLoadable image.segments → image ≡ image_of bytes
        → HaveSystem bytes text report.now system.now → IsChecked (table_of costs.now) bytes text c) }
    ensures err { IfErr result (λ cause. (bytes text : List ℕ) → HaveSystem bytes text report.now system.now → StopsAt (table_of costs.now) bytes text cause) }
{
    match check(system, costs, &report.cert) {
        Verdict::No { row } => Err(Cause::FailedRow { row }),
        Verdict::Yes { cycles, greatest } => match shares_fault(system, costs, report) {
            Some(at) => Err(Cause::FailedShare { at }),
            None => Ok(Checked { cycles, greatest }),
        },
    }
}

// The check of a report that was read.
#[tactic(auto, using(crate::proofs::CheckLemmas::found_system))]
fn check_told(
    alloc: Global,
    costs: &Costs,
    image: &Image,
    report: &Report,
) -> Result<Checked, Cause>
    ensures ok { IfOk result (λ c. (bytes text : List ℕ) → image.now ≡ image_of bytes → AreRead bytes text report.now → IsChecked (table_of costs.now) bytes text c) }
    ensures err { IfErr result (λ cause. (bytes text : List ℕ) → image.now ≡ image_of bytes → AreRead bytes text report.now → StopsAt (table_of costs.now) bytes text cause) }
{
    let _segments = image.segments();
    match find_system(alloc, image, report) {
        Ok(system) => match check_system(costs, &system, report) {
            Ok(checked) => {
                drop(system);
                Ok(checked)
            }
            Err(cause) => {
                drop(system);
                Err(cause)
            }
        },
        Err(cause) => Err(cause),
    }
}

// The check of a report on an image that was read.
#[tactic(auto, using(crate::proofs::CheckLemmas::are_read))]
fn check_loaded(alloc: Global, costs: &Costs, image: &Image, text: &[u8]) -> Result<Checked, Cause>
    ensures ok { IfOk result (λ c. (bytes : List ℕ) → IsLoadable bytes → image.now ≡ image_of bytes → IsChecked (table_of costs.now) bytes text.now c) }
    ensures err { IfErr result (λ cause. (bytes : List ℕ) → IsLoadable bytes → image.now ≡ image_of bytes → StopsAt (table_of costs.now) bytes text.now cause) }
{
    match read_report(alloc, text) {
        Ok(report) => match check_told(alloc, costs, image, &report) {
            Ok(checked) => {
                drop(report);
                Ok(checked)
            }
            Err(cause) => {
                drop(report);
                Err(cause)
            }
        },
        Err(cause) => Err(cause),
    }
}

/// The bound that a report gives to an image, with these costs, where it holds; else what fails
/// first: the image, the report, a claim, code, a row of the certificate or a share.
///
/// Where a bound is answered, each finished run of the image that keeps the report's claims ends
/// within its cycles, on every input. Where a report holds of the image, nothing but memory can be
/// wanting.
#[tactic(auto, using(crate::proofs::ExclusionLemmas::only_memory))]
pub fn check_report(
    alloc: Global,
    costs: &Costs,
    image: &[u8],
    report: &[u8],
) -> Result<Checked, Cause>
    ensures answer { MatchResult result (IsChecked (table_of costs.now) image.now report.now) (StopsAt (table_of costs.now) image.now report.now) }
    ensures yes { IsAccepted (table_of costs.now) image.now report.now → IsErrOf result causes.Memory ⊎ IsOk result }
{
    match read_image(alloc, image) {
        Ok(loaded) => match check_loaded(alloc, costs, &loaded, report) {
            Ok(checked) => {
                drop(loaded);
                Ok(checked)
            }
            Err(cause) => {
                drop(loaded);
                Err(cause)
            }
        },
        Err(cause) => Err(cause),
    }
}
