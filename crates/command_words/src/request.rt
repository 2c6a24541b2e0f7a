// What a command line can ask.
ghost use Rattle.std.specs.Prelude.{◌≤◌};
ghost use Rattle.std.specs.Option.{ForSome};

/// `compile SOURCE IMAGE REPORT [--spm N] [--unroll K] [--inline N] [--table FILE] [--derive]`.
#[derive(Clone, Copy)]
pub struct CompileRequest<'a> {
    pub source: &'a str,
    pub image: &'a str,
    pub report: &'a str,
    /// How many bytes of the scratchpad may be used.
    pub spm: Option<u64>,
    /// How often the body of a loop may be laid out.
    pub unroll: Option<u64>,
    /// How large a called function may be to be laid out at its call.
    pub inline: Option<u64>,
    /// The table of costs.
    pub table: Option<&'a str>,
    /// Whether bounds of counting loops are derived.
    pub derive: bool,
    pub ghost spm_most: { ForSome spm (λ n. n ≤ 65536) },
    pub ghost unroll_least: { ForSome unroll (λ n. 1 ≤ n) },
    pub ghost unroll_most: { ForSome unroll (λ n. n ≤ 64) },
    pub ghost inline_most: { ForSome inline (λ n. n ≤ 10000) },
}

/// `check IMAGE REPORT [--table FILE]`.
#[derive(Clone, Copy)]
pub struct CheckRequest<'a> {
    pub image: &'a str,
    pub report: &'a str,
    pub table: Option<&'a str>,
}

/// `run IMAGE INPUT OUTPUT [--limit N] [--table FILE]`.
#[derive(Clone, Copy)]
pub struct RunRequest<'a> {
    pub image: &'a str,
    pub input: &'a str,
    pub output: &'a str,
    /// How many cycles the run may take.
    pub limit: Option<u64>,
    pub table: Option<&'a str>,
    pub ghost limit_most: { ForSome limit (λ n. n ≤ 4611686018427387904) },
}

/// `eval SOURCE INPUT OUTPUT [--derive]`.
#[derive(Clone, Copy)]
pub struct EvalRequest<'a> {
    pub source: &'a str,
    pub input: &'a str,
    pub output: &'a str,
    pub derive: bool,
}

/// `report REPORT`.
#[derive(Clone, Copy)]
pub struct ReportRequest<'a> {
    pub report: &'a str,
}

/// `make N SOURCE IMAGE REPORT`.
#[derive(Clone, Copy)]
pub struct MakeRequest<'a> {
    pub number: u64,
    pub source: &'a str,
    pub image: &'a str,
    pub report: &'a str,
    pub ghost least: { 1 ≤ number },
    pub ghost most: { number ≤ 100 },
}

/// `respond TASKS [--table FILE]`.
#[derive(Clone, Copy)]
pub struct RespondRequest<'a> {
    pub tasks: &'a str,
    pub table: Option<&'a str>,
}

/// A command with what it is asked.
#[derive(Clone, Copy)]
pub enum Request<'a> {
    Compile(CompileRequest<'a>),
    Check(CheckRequest<'a>),
    Run(RunRequest<'a>),
    Eval(EvalRequest<'a>),
    Report(ReportRequest<'a>),
    Make(MakeRequest<'a>),
    Respond(RespondRequest<'a>),
}
