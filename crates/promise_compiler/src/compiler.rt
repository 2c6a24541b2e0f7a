// A compiler, by what it promises.
ghost use Rattle.std.specs.Prelude.{◌≤◌, ◌^◌, ℕ, List, length, IfErr, IfOk};
ghost use Rattle.elf_image.specs.Text.{text_of};
ghost use Rattle.report_text.specs.Lines.{report_text};
ghost use Rattle.rv_core.specs.Table.{table_of};
ghost use Rattle.promise_report.specs.Compiled.{IsCompiled};
ghost use Rattle.promise_compiler.specs.Lengths.{AreShort};
ghost use Rattle.promise_compiler.specs.declared.built.Options.{Options};
ghost use Rattle.promise_compiler.specs.Refusals.{Fails};

use crate::built::{Built, Options};
use crate::refusal::Refusal;
use std::alloc::Global;

/// A compiler of sources.
pub trait Compiler {
    /// How a source with these options becomes the texts of an image and a report: what the compiler
    /// says of its own way.
    ghost builds: { Options → List ℕ → List ℕ → List ℕ → Type 0 };

    /// The image of a source, and the report on it, or why there is none.
    fn compile(&self, alloc: Global, source: &[u8], options: &Options) -> Result<Built, Refusal>
        ensures ok { IfOk result (λ b. IsCompiled options.now.derive options.now.spm (table_of options.now.costs) source.now (text_of b.image) (report_text b.report) b.report) }
        // It goes that way, with these options and no others.
        ensures built { IfOk result (λ b. builds options.now source.now (text_of b.image) (report_text b.report)) }
        // No run that keeps within the bound ends at a limit of cycles.
        ensures cycles { IfOk result (λ b. b.report.cert.cycles ≤ 2 ^ 62) }
        // Of a source within its limit, both texts are within those of `check`.
        ensures short { IfOk result (λ b. length source.now ≤ 1048576 → AreShort (text_of b.image) (report_text b.report)) }
        ensures err { IfErr result (Fails options.now.derive source.now) };
}
