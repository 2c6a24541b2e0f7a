// The stages from the bytes of a source to its image and its report.
ghost use Rattle.std.specs.Prelude.{◌≡◌, ◌≤◌, ◌^◌, ℕ, Bool, List, [], length, IfErr, IfOk};
ghost use Rattle.elf_image.specs.Text.{text_of};
ghost use Rattle.promise_compiler.specs.Lengths.{AreShort};
ghost use Rattle.promise_compiler.specs.Refusals.{Fails};
ghost use Rattle.promise_report.specs.Compiled.{IsCompiled};
ghost use Rattle.report_laws.specs.Typed.{IsTyped};
ghost use Rattle.report_text.specs.Lines.{report_text};
ghost use Rattle.rv_core.specs.Table.{table_of};
ghost use Rattle.spm_placement.specs.Sets.{AreBest};
ghost use Rattle.compile_stages.specs.Made.{IsMade, high_of};
ghost use Rattle.compile_stages.specs.Placed.{IsPlacedBy};
ghost use Rattle.wcc_compile.specs.Lowered.{IsCodeOf};
ghost use Rattle.wcc_compile.specs.Passes as passes;
ghost use Rattle.compile_report.specs.Sources as sources;
ghost use Rattle.wcc_compile.specs.Built.{IsBuilt, gains_of};
ghost use Rattle.wcc_compile.specs.Steps.{IsFirst, IsLast};
ghost use Rattle.wcc_compile.specs.Written.{IsWritten};

use crate::built::{Built, written};
use crate::high_passes::{begun, passed};
use crate::laws::reported_are_compiled;
use crate::making::{laid, lowered, planned, unlaid};
use crate::reading::read;
use compile_placement::{
    choices_can_be_placed, choices_fit, items_are_few, items_are_whole, nothing_can_be_placed,
};
use compile_promise::texts_are_short;
use compile_report::{find, flows_visit_few, gains_by, joined, tell};
use compile_report_law::reported_are_reports;
use compile_stages::{Made, Stages};
use elf_image::read_of_write;
use facts_front::Source;
use high_fold::Fold;
use inliner::Inline;
use promise_compiler::{Built as Written, Compiler, Options, Refusal};
use rv_core::Costs;
use spm_placement::choose;
use std::alloc::Global;
use unroller::Unroll;
use wcc_base::Memory;
use wcc_report::Report;

/// A source in the high form: its plan, and what each pass makes of the program before it.
fn high(alloc: Global, source: &Source, options: &Options) -> Result<Stages, Memory>
    requires { (text : List ℕ) × sources.IsOf text source.now }
    ensures begun { IfOk result (passes.AreBegun options.now (sources.names_of source.now) (sources.tree_of source.now) source.now.facts) }
    ensures all { IfOk result (λ s. length s.before.items ≡ passes.passes) }
{
    let stages = begun(alloc, source, planned(alloc, source)?);
    let stages = passed(alloc, source, stages, options, 0, &Fold)?;
    let inline = Inline {
        limit: options.inline,
    };
    let stages = passed(alloc, source, stages, options, 1, &inline)?;
    let unroll = Unroll {
        factor: options.unroll,
    };
    let stages = passed(alloc, source, stages, options, 2, &unroll)?;
    let stages = passed(alloc, source, stages, options, 3, &Fold)?;
    Ok(stages)
}

/// A source in memory: what the passes make of it, the low form, the image with nothing in the scratchpad.
fn made(alloc: Global, source: &Source, options: &Options) -> Result<Made, Memory>
    requires { (text : List ℕ) × sources.IsOf text source.now }
    ensures stages { IfOk result (λ m. passes.AreStages options.now (sources.names_of source.now) (sources.tree_of source.now) source.now.facts (passes.stages_of m.stages)) }
    ensures all { IfOk result (λ m. length m.stages.before.items ≡ passes.passes) }
    ensures code { IfOk result (λ m. IsCodeOf (high_of m) m.code) }
    ensures made { IfOk result (IsMade (sources.names_of source.now) (sources.tree_of source.now) source.now.facts) }
    ensures none { IfOk result (IsPlacedBy []) }
{
    nothing_can_be_placed();
    let stages = high(alloc, source, options)?;
    let lowered = lowered(alloc, stages)?;
    let made = laid(alloc, lowered, &[])?;
    Ok(made)
}

/// The report on it: what is told of the source, and the bound with its shares.
fn reported(alloc: Global, source: &Source, made: &Made, costs: &Costs) -> Result<Report, Memory>
    requires { sources.IsMadeOf source.now made.now }
    ensures reported { IfOk result (sources.IsReportOn (table_of costs.now) source.now made.now) }
    ensures typed { IfOk result IsTyped }
    ensures cycles { IfOk result (λ r. r.cert.cycles ≤ 2 ^ 62) }
{
    reported_are_reports();
    let told = tell(alloc, source, made)?;
    match find(alloc, source, made, &told.claims, costs) {
        Ok(found) => Ok(joined(told, found)),
        Err(memory) => {
            drop(told);
            Err(memory)
        }
    }
}

/// Both together.
fn with_report(alloc: Global, source: &Source, made: Made, costs: &Costs) -> Result<Built, Memory>
    requires { sources.IsMadeOf source.now made }
    ensures made { IfOk result (λ b. b.made ≡ made) }
    ensures reported { IfOk result (λ b. sources.IsReportOn (table_of costs.now) source.now b.made b.report) }
    ensures typed { IfOk result (λ b. IsTyped b.report) }
    ensures cycles { IfOk result (λ b. b.report.cert.cycles ≤ 2 ^ 62) }
{
    match reported(alloc, source, &made, costs) {
        Ok(report) => Ok(Built { made, report }),
        Err(memory) => {
            drop(made);
            Err(memory)
        }
    }
}

/// A source with nothing in the scratchpad, and the report on it.
fn first(alloc: Global, source: &Source, options: &Options) -> Result<Built, Memory>
    requires { (text : List ℕ) × sources.IsOf text source.now }
    ensures laid { IfOk result (IsFirst options.now source.now) }
    ensures typed { IfOk result (λ b. IsTyped b.report) }
    ensures cycles { IfOk result (λ b. b.report.cert.cycles ≤ 2 ^ 62) }
{
    let made = made(alloc, source, options)?;
    with_report(alloc, source, made, &options.costs)
}

/// The numbers of the functions and arrays to place, by the flow that the first certificate lists: no others that fit
/// gain more.
fn chosen(
    alloc: Global,
    source: &Source,
    first: &Built,
    options: &Options,
) -> Result<Vec<u32>, Memory>
    requires { IsFirst options.now source.now first.now }
    ensures { IfOk result (λ ids. AreBest (gains_of (table_of options.now.costs) first.now) options.now.spm ids.items) }
{
    flows_visit_few();
    items_are_whole();
    items_are_few();
    let items = &first.made.laid.lists.items;
    let gains = gains_by(alloc, items, &first.report, &options.costs)?;
    choose(alloc, &gains, options.spm)
}

/// A source with these functions and arrays in the scratchpad, and the report on it.
fn last(
    alloc: Global,
    source: &Source,
    first: Built,
    options: &Options,
    chosen: &[u32],
) -> Result<Built, Memory>
    requires first { IsFirst options.now source.now first }
    requires best { AreBest (gains_of (table_of options.now.costs) first) options.now.spm chosen.now }
    ensures laid { IfOk result (IsLast options.now source.now) }
    ensures typed { IfOk result (λ b. IsTyped b.report) }
    ensures cycles { IfOk result (λ b. b.report.cert.cycles ≤ 2 ^ 62) }
{
    choices_can_be_placed();
    let Built { made, report } = first;
    drop(report);
    let made = laid(alloc, unlaid(made), chosen)?;
    with_report(alloc, source, made, &options.costs)
}

/// A source with the best choice of what lies in the scratchpad. Where nothing is chosen, it stays as it was laid first.
fn placed(alloc: Global, source: &Source, first: Built, options: &Options) -> Result<Built, Memory>
    requires first { IsFirst options.now source.now first }
    requires typed { IsTyped first.report }
    requires cycles { first.report.cert.cycles ≤ 2 ^ 62 }
    ensures laid { IfOk result (IsLast options.now source.now) }
    ensures typed { IfOk result (λ b. IsTyped b.report) }
    ensures cycles { IfOk result (λ b. b.report.cert.cycles ≤ 2 ^ 62) }
{
    match chosen(alloc, source, &first, options) {
        Ok(numbers) => {
            if numbers.is_empty() {
                return Ok(first);
            }
            last(alloc, source, first, options, &numbers)
        }
        Err(memory) => {
            drop(first);
            Err(memory)
        }
    }
}

/// The image of a source that was read, and the report on it, with these options.
fn built(alloc: Global, source: &Source, options: &Options) -> Result<Built, Memory>
    requires { (text : List ℕ) × sources.IsOf text source.now }
    ensures built { IfOk result (λ b. (text : List ℕ) → sources.IsOfBy options.now.derive text source.now → IsBuilt options.now text b) }
    ensures compiled { IfOk result (λ b. (derive : Bool) (text : List ℕ) → sources.IsOfBy derive text source.now → IsCompiled derive options.now.spm (table_of options.now.costs) text (text_of b.made.laid.image) (report_text b.report) b.report) }
    ensures cycles { IfOk result (λ b. b.report.cert.cycles ≤ 2 ^ 62) }
    ensures short { IfOk result (λ b. (text : List ℕ) → sources.IsOf text source.now → length text ≤ 1048576 → AreShort (text_of b.made.laid.image) (report_text b.report)) }
{
    choices_fit();
    reported_are_compiled();
    texts_are_short();
    let first = first(alloc, source, options)?;
    let built = placed(alloc, source, first, options)?;
    read_of_write(&built.made.laid.image);
    Ok(built)
}

/// The image of a source and the report on it, with all that the source was on the way.
pub fn compile(alloc: Global, source: &[u8], options: &Options) -> Result<Built, Refusal>
    ensures built { IfOk result (IsBuilt options.now source.now) }
    ensures ok { IfOk result (λ b. IsCompiled options.now.derive options.now.spm (table_of options.now.costs) source.now (text_of b.made.laid.image) (report_text b.report) b.report) }
    ensures cycles { IfOk result (λ b. b.report.cert.cycles ≤ 2 ^ 62) }
    ensures short { IfOk result (λ b. length source.now ≤ 1048576 → AreShort (text_of b.made.laid.image) (report_text b.report)) }
    ensures err { IfErr result (Fails options.now.derive source.now) }
{
    let source = read(alloc, source, options.derive)?;
    let built = built(alloc, &source, options);
    source.let_go();
    match built {
        Ok(built) => Ok(built),
        Err(_) => Err(Refusal::Memory),
    }
}

/// The compiler that [`compile`] is.
pub struct WccCompiler;

/// What is written of a source.
fn compiled(alloc: Global, source: &[u8], options: &Options) -> Result<Written, Refusal>
    ensures ok { IfOk result (λ b. IsCompiled options.now.derive options.now.spm (table_of options.now.costs) source.now (text_of b.image) (report_text b.report) b.report) }
    ensures built { IfOk result (λ b. IsWritten options.now source.now (text_of b.image) (report_text b.report)) }
    ensures cycles { IfOk result (λ b. b.report.cert.cycles ≤ 2 ^ 62) }
    ensures short { IfOk result (λ b. length source.now ≤ 1048576 → AreShort (text_of b.image) (report_text b.report)) }
    ensures err { IfErr result (Fails options.now.derive source.now) }
{
    match compile(alloc, source, options) {
        Ok(built) => Ok(written(built)),
        Err(refusal) => Err(refusal),
    }
}

impl Compiler for WccCompiler {
    ghost builds = { IsWritten };

    fn compile(&self, alloc: Global, source: &[u8], options: &Options) -> Result<Written, Refusal> {
        compiled(alloc, source, options)
    }
}
