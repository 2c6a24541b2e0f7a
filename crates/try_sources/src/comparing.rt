// How a run compares with what a source means.
ghost use Rattle.std.specs.Prelude.{◌≡◌, ◌↔◌, IsTrue, Some, sum_by};
ghost use Rattle.high_ir.specs.Runs.{count_of};
ghost use Rattle.try_sources.specs.Verdicts.{CountsSay, EndsSay, Says, text_of};

use high_ir::MarkCopies;
use meaning_semantics::SourceRun;
use std::fmt;

/// A run that has ended: its value, its output and the marks that it passed.
#[derive(Drop)]
pub struct Ended {
    pub value: i32,
    pub output: Vec<u8>,
    pub trace: Vec<u32>,
}

/// How a run compares with what a source means.
#[derive(Clone, Copy)]
pub enum Verdict {
    Equal,
    OtherValue,
    OtherOutput,
    /// The function or marker of this number is counted otherwise.
    OtherCount(usize),
    /// The run has no good end, though that of the source is kept.
    NotGood,
    /// The run of the source isn't kept, so that nothing is promised.
    NotKept,
}

impl fmt::Display for Verdict {
    ghost output = { λ v. Some (text_of v) };

    fn fmt<W: fmt::Write>(&self, f: &mut fmt::Formatter<W>) -> fmt::Result {
        match self {
            Verdict::Equal => f.write_str("equal"),
            Verdict::OtherValue => f.write_str("other value"),
            Verdict::OtherOutput => f.write_str("other output"),
            Verdict::OtherCount(number) => write!(f, "other count {number}"),
            Verdict::NotGood => f.write_str("not good"),
            Verdict::NotKept => f.write_str("not kept"),
        }
    }
}

/// How often a mark was passed.
fn count_of(trace: &[u32], mark: u32) -> u64
    ensures { result ≡ count_of mark trace.now }
{
    let mut count = 0;
    for passed in trace {
        if *passed == mark {
            count += 1;
        }
    }
    count
}

/// Whether the copies of a mark were passed so often in all.
fn add_up(trace: &[u32], copies: &[u32], count: u64) -> bool
    ensures { IsTrue result ↔ (sum_by (λ m. count_of m trace.now) copies.now ≡ count) }
{
    let mut left = count;
    for mark in copies {
        let found = count_of(trace, *mark);
        if found > left {
            return false;
        }
        left -= found;
    }
    left == 0
}

/// The first function or marker that is counted otherwise, or that only one side has.
fn other_count(trace: &[u32], marks: &[MarkCopies], counts: &[u64]) -> Option<usize>
    ensures { CountsSay result trace.now marks.now counts.now }
{
    for number in 0..counts.len() {
        match marks.get(number) {
            None => return Some(number),
            Some(mark) => {
                if !add_up(trace, &mark.new, counts[number]) {
                    return Some(number);
                }
            }
        }
    }
    if marks.len() > counts.len() {
        return Some(counts.len());
    }
    None
}

fn compare_ends(
    run: &Ended,
    marks: &[MarkCopies],
    output: &[u8],
    value: i32,
    counts: &[u64],
) -> Verdict
    ensures { EndsSay result run.now marks.now output.now value counts.now }
{
    if run.value != value {
        return Verdict::OtherValue;
    }
    if run.output.as_slice() != output {
        return Verdict::OtherOutput;
    }
    match other_count(&run.trace, marks, counts) {
        None => Verdict::Equal,
        Some(number) => Verdict::OtherCount(number),
    }
}

/// How a run compares with what a source means, by the copies of the source's marks.
pub fn compare(run: &Option<Ended>, marks: &[MarkCopies], meant: &SourceRun) -> Verdict
    ensures { Says result run.now marks.now meant.now }
{
    match meant {
        SourceRun::Done {
            output,
            value,
            counts,
        } => match run {
            None => Verdict::NotGood,
            Some(run) => { compare_ends(run, marks, output.as_slice(), *value, counts.as_slice()) }
        },
        SourceRun::Undefined { .. } => Verdict::NotKept,
        SourceRun::Broken { .. } => Verdict::NotKept,
    }
}
