// Where the relations of a command leave one status only.
ghost use Rattle.std.specs.Prelude.{◌≡◌, ◌≤◌, ℕ, Bool, List, IsSome, IsSomeAnd, Some};
ghost use Rattle.wcc_base.specs.Outside.{Files, StoreState, bytes_of};
ghost use Rattle.wcc_base.specs.declared.status.Status.TheVariants as status;
ghost use Rattle.rv_core.specs.Table.{Table};
ghost use Rattle.report_check.specs.Checks.{IsAccepted};
ghost use Rattle.meaning_semantics.specs.declared.source_run.SourceRun.{SourceRun};
ghost use Rattle.wcc_base.specs.declared.status.Status.{Status};
ghost use Rattle.command_words.specs.Requests.{CompileRequest, CheckRequest, RunRequest, EvalRequest, ReportRequest, MakeRequest, RespondRequest};
ghost use Rattle.command_perform.specs.Words.{Named, Compile, Check, Run, Eval, Report, Make, Respond};
ghost use Rattle.command_perform.specs.Evaluating.{run_outputs, IsRun, MakesRun, Evaluates, IsRejected};
ghost use Rattle.command_perform.specs.Outputs.{Outputs};
ghost use Rattle.command_perform.specs.Sources.{RefusesProgram};
ghost use Rattle.command_perform.specs.declared.compile.Texts.{Texts};
ghost use Rattle.command_perform.specs.Compiling.{Compiles, IsCompilable};
ghost use Rattle.command_perform.specs.Gathering.{Fit, contents_of};
ghost use Rattle.command_perform.specs.Commands.{wanted_of, IsOfSource, CanAccept, CanExitRun};
ghost use Rattle.response_analysis.specs.declared.task.Task.{Task};
ghost use Rattle.response_analysis.specs.Ends.{EndInTime};
ghost use Rattle.response_time.specs.declared.entry.Entry.{Entry};
ghost use Rattle.command_perform.specs.Reporting.{CanSummarize};
ghost use Rattle.command_perform.specs.Responding.{AreTasksOf, CanRespond, RunsEndInTime};
ghost use Rattle.command_perform.specs.Promises.{CanEnd};

/// A source has a program with facts, or is refused in one way, and `compile` can only end so, with the
/// costs of a table that isn't refused. What it writes holds.
pub fn compilation_is_done()
    ensures compilable { (asked : CompileRequest) (old : StoreState) → IsSomeAnd old.files (λ fs. Fit (wanted_of (Compile asked)) fs × IsOfSource (IsCompilable asked.derive) (contents_of (wanted_of (Compile asked)) fs)) → CanEnd (Some (Named (Compile asked))) old status.Done }
    ensures refused { (asked : CompileRequest) (old : StoreState) (s : Status) → IsSomeAnd old.files (λ fs. Fit (wanted_of (Compile asked)) fs × IsOfSource (λ source. RefusesProgram asked.derive source s) (contents_of (wanted_of (Compile asked)) fs)) → CanEnd (Some (Named (Compile asked))) old s }
    ensures holds { (derive : Bool) (spm : ℕ) (costs : Table) (source : List ℕ) (t : Texts) → Compiles derive spm costs source t → IsAccepted costs t.image t.report }
{}

/// A report that holds of an image, with the costs of a table that isn't refused, can only be found to hold.
pub fn accepted_is_done()
    ensures { (asked : CheckRequest) (old : StoreState) → IsSomeAnd old.files (λ fs. Fit (wanted_of (Check asked)) fs × CanAccept (contents_of (wanted_of (Check asked)) fs)) → CanEnd (Some (Named (Check asked))) old status.Done }
{}

/// An image that exits within the limits, with the costs of a table that isn't refused, can only be run.
pub fn exit_is_done()
    ensures { (asked : RunRequest) (old : StoreState) → IsSomeAnd old.files (λ fs. Fit (wanted_of (Run asked)) fs × CanExitRun asked (contents_of (wanted_of (Run asked)) fs)) → CanEnd (Some (Named (Run asked))) old status.Done }
{}

/// A source does one thing on an input, or is refused in one way, and `eval` can only end so. What
/// is written and printed is determined too.
pub fn evaluation_is_done()
    ensures run { (asked : EvalRequest) (old : StoreState) (run : SourceRun) → IsSomeAnd old.files (λ fs. Evaluates asked.derive (bytes_of fs asked.source) (bytes_of fs asked.input) run) → CanEnd (Some (Named (Eval asked))) old (run_outputs asked run).status }
    ensures refusal { (asked : EvalRequest) (old : StoreState) (s : Status) → IsSomeAnd old.files (λ fs. IsRejected asked.derive (bytes_of fs asked.source) (bytes_of fs asked.input) s) → CanEnd (Some (Named (Eval asked))) old s }
    ensures made { (asked : EvalRequest) (source input : List ℕ) (run : SourceRun) (made : Outputs) → IsRun asked.derive source input run → MakesRun asked source input made → made ≡ run_outputs asked run }
{}

/// The text of a report can only be summarized.
pub fn summary_is_done()
    ensures { (asked : ReportRequest) (old : StoreState) → IsSomeAnd old.files (λ fs. CanSummarize (bytes_of fs asked.report)) → CanEnd (Some (Named (Report asked))) old status.Done }
{}

/// A number from 1 to 100 can only be made.
pub fn numbered_is_done()
    ensures { (asked : MakeRequest) (old : StoreState) → IsSome old.files → 1 ≤ asked.number → asked.number ≤ 100 → CanEnd (Some (Named (Make asked))) old status.Done }
{}

/// A list of tasks whose reports hold and of which none is late, with the costs of a table that isn't
/// refused, can only be answered with their responses. Where each job is a run of its task's image
/// that exits and keeps the claims of its report, each is finished by then.
pub fn responses_are_done()
    ensures done { (asked : RespondRequest) (old : StoreState) → IsSomeAnd old.files (λ fs. CanRespond asked fs) → CanEnd (Some (Respond asked)) old status.Done }
    ensures runs { (costs : Table) (fs : Files) (es : List Entry) (ts : List Task) (responses : List ℕ) → AreTasksOf costs (Some fs) es ts → EndInTime ts responses → RunsEndInTime costs fs es responses }
{}
