// The command `compile SOURCE IMAGE REPORT [--spm N] [--unroll K] [--inline N] [--table FILE] [--derive]`.
ghost use Rattle.std.specs.Prelude.{◌≡◌, ◌⊎◌, length, IfOk, MatchResult};
ghost use Rattle.wcc_base.specs.declared.status.Status.TheVariants as status;
ghost use Rattle.rv_core.specs.Table.{table_of};
ghost use Rattle.elf_image.specs.Text.{text_of as image_text};
ghost use Rattle.report_text.specs.Lines.{report_text};
ghost use Rattle.command_words.specs.Held.{compile_request};
ghost use Rattle.command_perform.specs.Words.{Compile};
ghost use Rattle.command_perform.specs.Commands.{wanted_of, Refuses, Makes};
ghost use Rattle.command_perform.specs.Ends.{IsEnd, IsRefusal};
ghost use Rattle.command_perform.specs.Lines.{cycles_line};
ghost use Rattle.command_perform.specs.Compiling.{compile_status, Compiles, compiled_outputs, MakesImage};
ghost use Rattle.command_perform.specs.Sources.{RefusesProgram};
ghost use Rattle.command_perform.specs.Settings.{settings_of};
ghost use Rattle.command_perform.specs.Building.{BuildsImage, BuildsOf};
ghost use Rattle.command_perform.specs.Outputs.{outputs_of};

use crate::lines::cycles_line;
use crate::make::{Made, Output};
use crate::printing::text_of;
use crate::sources::refusal_status;
use crate::tables::charged_one;
use command_words::CompileRequest;
use promise_compiler::{Built, Compiler, Options, Refusal};
use rv_core::Costs;
use std::alloc::Global;
use wcc_base::{Items, Memory, Status};

/// An image and a report, as the bytes of files, and the line of the bound.
#[derive(Drop)]
pub struct Texts {
    pub image: Items<u8>,
    pub report: Items<u8>,
    pub line: Items<u8>,
}

// What is built, as bytes.
fn texts_of(alloc: Global, built: &Built) -> Result<Texts, Memory>
    ensures image { IfOk result (λ t. t.image ≡ image_text built.now.image) }
    ensures report { IfOk result (λ t. t.report ≡ report_text built.now.report) }
    ensures line { IfOk result (λ t. t.line ≡ cycles_line built.now.report.cert.cycles built.now.report.kind) }
{
    let line = cycles_line(built.report.cert.cycles, built.report.kind);
    let line = text_of(alloc, &line)?;
    let image = elf_image::write(alloc, &built.image)?;
    let report = wcc_report::write(alloc, &built.report)?;
    Ok(Texts {
        image: Items::new(image),
        report: Items::new(report),
        line: Items::new(line),
    })
}

// The status of a source that isn't compiled.
fn status_of(refusal: Refusal) -> Status
    ensures { result ≡ compile_status refusal }
{
    match refusal {
        Refusal::Front(refusal) => refusal_status(refusal),
        Refusal::Memory => Status::Memory,
    }
}

/// Compiles the source with these options.
pub fn compiled<C: Compiler>(
    compiler: &C,
    alloc: Global,
    source: &[u8],
    options: Options,
) -> Result<Texts, Status>
    ensures made { MatchResult result (Compiles options.derive options.spm (table_of options.costs) source.now)
        (λ s. (s ≡ status.Memory) ⊎ (IsRefusal s × RefusesProgram options.derive source.now s)) }
    ensures built { IfOk result (λ t. C.builds options source.now t.image t.report) }
{
    match compiler.compile(alloc, source, &options) {
        Ok(built) => {
            let texts = texts_of(alloc, &built);
            drop(built);
            match texts {
                Ok(texts) => Ok(texts),
                Err(_) => Err(Status::Memory),
            }
        }
        Err(refusal) => Err(status_of(refusal)),
    }
}

// The image and the report, in this order.
fn outputs<'a>(alloc: Global, asked: CompileRequest<'a>, texts: Texts) -> Result<Made<'a>, Memory>
    ensures { IfOk result (λ m. outputs_of m ≡ compiled_outputs (compile_request asked.entry) texts) }
{
    let Texts {
        image,
        report,
        line,
    } = texts;
    let mut files = Vec::new(alloc);
    files.push(Output {
        name: asked.image,
        bytes: image,
    })?;
    files.push(Output {
        name: asked.report,
        bytes: report,
    })?;
    Ok(Made {
        status: Status::Done,
        files,
        lines: line,
    })
}

// Compiles the source into the image and the report with these costs.
fn compile_with<'a, C: Compiler>(
    compiler: &C,
    alloc: Global,
    asked: CompileRequest<'a>,
    source: Items<u8>,
    costs: Costs,
) -> Result<Made<'a>, Status>
    ensures made { MatchResult result (λ m. IsEnd m.status × MakesImage (compile_request asked.entry) (table_of costs) source (outputs_of m))
        (λ s. (s ≡ status.Memory) ⊎ (IsRefusal s × RefusesProgram (compile_request asked.entry).derive source s)) }
    ensures built { IfOk result (λ m. BuildsImage C.builds (settings_of (compile_request asked.entry) (table_of costs)) source (λ t. outputs_of m ≡ compiled_outputs (compile_request asked.entry) t)) }
{
    let options = Options {
        costs,
        derive: asked.derive,
        spm: asked.scratchpad_bytes() as u32,
        inline: asked.inline_size() as u32,
        unroll: asked.unroll_factor() as u32,
    };
    match compiled(compiler, alloc, source.as_slice(), options) {
        Ok(texts) => match outputs(alloc, asked, texts) {
            Ok(made) => Ok(made),
            Err(_) => Err(Status::Memory),
        },
        Err(status) => Err(status),
    }
}

/// Compiles the source into the image and the report, with the costs of the table where one is named.
pub fn make_compiled<'a, C: Compiler>(
    compiler: &C,
    alloc: Global,
    asked: CompileRequest<'a>,
    contents: Vec<Items<u8>>,
) -> Result<Made<'a>, Status>
    requires { length contents.items ≡ length (wanted_of (Compile (compile_request asked))) }
    ensures made { MatchResult result (λ m. IsEnd m.status × Makes (Compile (compile_request asked.entry)) contents.items (outputs_of m))
        (λ s. (s ≡ status.Memory) ⊎ (IsRefusal s × Refuses (Compile (compile_request asked.entry)) contents.items s)) }
    ensures built { IfOk result (λ m. BuildsOf C.builds (Compile (compile_request asked.entry)) contents.items (outputs_of m)) }
{
    match charged_one(alloc, asked.table, contents) {
        Ok((source, costs)) => compile_with(compiler, alloc, asked, source, costs),
        Err(status) => Err(status),
    }
}
