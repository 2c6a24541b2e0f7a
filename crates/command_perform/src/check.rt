// The command `check IMAGE REPORT [--table FILE]`.
ghost use Rattle.std.specs.Prelude.{◌≡◌, ◌⊎◌, length, IfOk, MatchResult};
ghost use Rattle.wcc_base.specs.declared.status.Status.TheVariants as status;
ghost use Rattle.rv_core.specs.Table.{table_of};
ghost use Rattle.command_words.specs.Held.{check_request};
ghost use Rattle.report_check.specs.Checks.{IsChecked};
ghost use Rattle.command_perform.specs.Words.{Check};
ghost use Rattle.command_perform.specs.Commands.{wanted_of, Refuses, Makes};
ghost use Rattle.command_perform.specs.Ends.{IsEnd, IsRefusal};
ghost use Rattle.command_perform.specs.Checking.{row_status, no_status, yes_outputs, RefusesCheck, MakesYes};
ghost use Rattle.command_perform.specs.Outputs.{outputs_of};

use crate::lines::yes_line;
use crate::make::Made;
use crate::printing::text_of;
use crate::report::fault_of;
use crate::run::fault_of_image;
use crate::tables::charged_two;
use command_words::CheckRequest;
use dual_check::Row;
use report_check::{Cause, Checked, check_report};
use rv_core::Costs;
use std::alloc::Global;
use wcc_base::{Items, Memory, Status};

fn no(code: u8, detail: u8, at: u32) -> Status
    ensures { result ≡ status.No code detail at }
{
    Status::No { code, detail, at }
}

// The status of a row that fails.
fn row_status(row: Row) -> Status
    ensures { result ≡ row_status row }
{
    match row {
        Row::Missing { at } => no(5, 0, at),
        Row::Sign { claim } => no(6, 0, claim),
        Row::Wide { at } => no(7, 0, at),
        Row::Move { at, number } => no(8, number, at),
        Row::Value => no(9, 0, 0),
        Row::Flow { at } => no(10, 0, at),
        Row::Unmet { claim } => no(11, 0, claim),
        Row::Greatest => no(12, 0, 0),
        Row::Empty => no(13, 0, 0),
    }
}

// The status of what fails first.
fn no_status(cause: Cause) -> Status
    ensures { result ≡ no_status cause }
{
    match cause {
        Cause::NoImage { fault } => {
            let (detail, at) = fault_of_image(fault);
            no(1, detail, at)
        }
        Cause::NoReport { fault } => {
            let (detail, at) = fault_of(fault);
            no(2, detail, at)
        }
        Cause::BadClaim { index } => no(3, 0, index),
        Cause::NoCode { at } => no(4, 0, at),
        Cause::FailedRow { row } => row_status(row),
        Cause::FailedShare { at } => no(14, 0, at),
        Cause::Memory => Status::Memory,
    }
}

// The line of the bound.
fn outputs<'a>(alloc: Global, checked: Checked) -> Result<Made<'a>, Memory>
    ensures { IfOk result (λ m. outputs_of m ≡ yes_outputs checked) }
{
    let line = yes_line(checked.cycles, checked.greatest);
    let lines = text_of(alloc, &line)?;
    Ok(Made {
        status: Status::Done,
        files: Vec::new(alloc),
        lines: Items::new(lines),
    })
}

/// Checks the report of the image with these costs.
#[tactic(auto, using(crate::proofs::CheckRuns::refuses_check))]
pub fn check_files(
    alloc: Global,
    costs: &Costs,
    image: &[u8],
    report: &[u8],
) -> Result<Checked, Status>
    ensures { MatchResult result (IsChecked (table_of costs.now) image.now report.now)
        (λ s. (s ≡ status.Memory) ⊎ (IsRefusal s × RefusesCheck (table_of costs.now) image.now report.now s)) }
{
    match check_report(alloc, costs, image, report) {
        Ok(checked) => Ok(checked),
        Err(cause) => Err(no_status(cause)),
    }
}

// Says whether the report holds of the image with these costs.
fn yes_with<'a>(
    alloc: Global,
    image: Items<u8>,
    report: Items<u8>,
    costs: Costs,
) -> Result<Made<'a>, Status>
    ensures { MatchResult result (λ m. IsEnd m.status × MakesYes (table_of costs) image report (outputs_of m))
        (λ s. (s ≡ status.Memory) ⊎ (IsRefusal s × RefusesCheck (table_of costs) image report s)) }
{
    match check_files(alloc, &costs, image.as_slice(), report.as_slice()) {
        Ok(checked) => match outputs(alloc, checked) {
            Ok(made) => Ok(made),
            Err(_) => Err(Status::Memory),
        },
        Err(status) => Err(status),
    }
}

/// Says whether the report holds of the image, with the costs of the table where one is named.
pub fn make_yes<'a>(
    alloc: Global,
    asked: CheckRequest,
    contents: Vec<Items<u8>>,
) -> Result<Made<'a>, Status>
    requires { length contents.items ≡ length (wanted_of (Check (check_request asked))) }
    ensures { MatchResult result (λ m. IsEnd m.status × Makes (Check (check_request asked.entry)) contents.items (outputs_of m))
        (λ s. (s ≡ status.Memory) ⊎ (IsRefusal s × Refuses (Check (check_request asked.entry)) contents.items s)) }
{
    match charged_two(alloc, asked.table, contents) {
        Ok((image, report, costs)) => yes_with(alloc, image, report, costs),
        Err(status) => Err(status),
    }
}
