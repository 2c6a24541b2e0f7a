// What a report comes to in a few lines.
ghost use Rattle.std.specs.Prelude.{◌≡◌, ◌++◌, map, IfOk, IfErr, MatchResult, OnOk};
ghost use Rattle.report_words.specs.Words.{line_text, lines_text};
ghost use Rattle.report_reading.specs.declared.fault.ReportFault.TheVariants as faults;
ghost use Rattle.report_reading.specs.Reading.{StopsAt};
ghost use Rattle.report_check.specs.Summaries.{kind_word, count_line, share_line, summary_text, IsSummary};

use crate::reading::read_text;
use code_flow_answer::Kind;
use report_reading::ReportFault;
use report_text::{Report, Share};
use report_words::{Field, put_line};
use std::alloc::Global;
use wcc_base::Memory;

fn kind_word(kind: Kind) -> &'static [u8]
    ensures { result.now ≡ kind_word kind }
{
    match kind {
        Kind::Greatest => b"greatest",
        Kind::Empty => b"empty",
        Kind::Wide { .. } => b"wide",
        Kind::Spent { .. } => b"spent",
    }
}

// Adds the numbers of loop and fact lines.
fn put_counts(text: &mut Vec<u8>, report: &Report) -> Result<(), Memory>
    ensures { OnOk result (text.new.items ≡ text.old.items ++ line_text (count_line report.now)) }
{
    let loops = report.claims.loops().len() as u64;
    let facts = report.claims.facts().len() as u64;
    put_line(
        text,
        b"loops",
        &[
            Field::Number(loops),
            Field::Word(b"facts"),
            Field::Number(facts),
        ],
    )
}

fn put_share(text: &mut Vec<u8>, unit: u64, share: &Share) -> Result<(), Memory>
    ensures { OnOk result (text.new.items ≡ text.old.items ++ line_text (share_line unit share.now)) }
{
    let name = match &share.name {
        None => b"-",
        Some(name) => name.as_bytes(),
    };
    put_line(
        text,
        b"share",
        &[
            Field::Word(name),
            Field::Signed(share.part),
            Field::Word(b"over"),
            Field::Number(unit),
        ],
    )
}

fn put_shares(text: &mut Vec<u8>, unit: u64, shares: &[Share]) -> Result<(), Memory>
    ensures { OnOk result (text.new.items ≡ text.old.items ++ lines_text (map (share_line unit) shares.now)) }
{
    for share in shares {
        put_share(text, unit, share)?;
    }
    Ok(())
}

// The lines of a report.
fn summarize(alloc: Global, report: &Report) -> Result<Vec<u8>, Memory>
    ensures { IfOk result (λ text. text.items ≡ summary_text report.now) }
{
    let mut text = Vec::new(alloc);
    let word = kind_word(report.kind);
    put_line(
        &mut text,
        b"cycles",
        &[Field::Number(report.cert.cycles), Field::Word(word)],
    )?;
    put_counts(&mut text, report)?;
    put_shares(&mut text, report.cert.flow.unit, report.shares.as_slice())?;
    Ok(text)
}

// The same, where a report is read.
fn summarize_read(alloc: Global, report: &Report) -> Result<Vec<u8>, ReportFault>
    ensures ok { IfOk result (λ text. text.items ≡ summary_text report.now) }
    ensures err { IfErr result (λ fault. fault ≡ faults.Memory) }
{
    match summarize(alloc, report) {
        Ok(text) => Ok(text),
        Err(_) => Err(ReportFault::Memory),
    }
}

/// What a report comes to, by its text: its cycles and kind, the numbers of its loop and fact
/// lines, and the shares of its functions over the flow's unit.
#[tactic(auto, using(crate::proofs::CheckLemmas::memory_stops))]
pub fn summarize_text(alloc: Global, text: &[u8]) -> Result<Vec<u8>, ReportFault>
    ensures { MatchResult result (λ lines. IsSummary text.now lines.items) (StopsAt text.now) }
{
    match read_text(alloc, text) {
        Ok(report) => match summarize_read(alloc, &report) {
            Ok(lines) => {
                drop(report);
                Ok(lines)
            }
            Err(fault) => {
                drop(report);
                Err(fault)
            }
        },
        Err(fault) => Err(fault),
    }
}
