// The text of a report.
ghost use Rattle.std.specs.Prelude.{◌≡◌, ◌++◌, [], map, IfOk, OnOk};
ghost use Rattle.std.specs.Fmt.{signed_decimal};
ghost use Rattle.report_words.specs.Words.{address_word, lines_text, line_text, spaced};
ghost use Rattle.report_text.specs.Lines.{version_lines, kind_line, head_lines, copy_line, column_line, potential_line, flow_line, cert_lines, share_line, report_text};

use crate::claim_lines::put_claims;
use crate::{CopyLine, Report, Share};
use code_flow_answer::{Column, Kind};
use code_flow_system::{Cert, Part};
use report_words::{Field, end_line, put_fields, put_line, put_start};
use std::alloc::Global;
use wcc_base::Memory;

/// The one text of a report.
pub fn write(alloc: Global, report: &Report) -> Result<Vec<u8>, Memory>
    ensures { IfOk result (λ text. text.items ≡ report_text report.now) }
{
    let mut text = Vec::new(alloc);
    put_head(&mut text, report)?;
    put_copies(&mut text, report.names.as_slice())?;
    put_claims(&mut text, &report.claims, &report.cert)?;
    put_columns(&mut text, report.columns.as_slice())?;
    put_cert(&mut text, &report.cert)?;
    put_shares(&mut text, report.shares.as_slice())?;
    put_line(&mut text, b"end", &[])?;
    Ok(text)
}

// Adds the version, where it is named.
fn put_version(text: &mut Vec<u8>, version: u8) -> Result<(), Memory>
    ensures { OnOk result (text.new.items ≡ text.old.items ++ lines_text (version_lines version)) }
{
    if version == 1 {
        return Ok(());
    }
    put_line(text, b"version", &[Field::Number(u64::from(version))])
}

fn put_kind(text: &mut Vec<u8>, kind: Kind) -> Result<(), Memory>
    ensures { OnOk result (text.new.items ≡ text.old.items ++ line_text (kind_line kind)) }
{
    match kind {
        Kind::Greatest => put_line(text, b"kind", &[Field::Word(b"greatest")]),
        Kind::Empty => put_line(text, b"kind", &[Field::Word(b"empty")]),
        Kind::Wide { pivot } => put_line(
            text,
            b"kind",
            &[Field::Word(b"wide"), Field::Number(u64::from(pivot))],
        ),
        Kind::Spent { columns, pivots } => put_line(
            text,
            b"kind",
            &[
                Field::Word(b"spent"),
                Field::Number(u64::from(columns)),
                Field::Number(u64::from(pivots)),
            ],
        ),
    }
}

// Adds the lines of the version, the cycles and the kind.
fn put_head(text: &mut Vec<u8>, report: &Report) -> Result<(), Memory>
    ensures { OnOk result (text.new.items ≡ text.old.items ++ lines_text (head_lines report.now)) }
{
    put_version(text, report.version)?;
    put_line(text, b"cycles", &[Field::Number(report.cert.cycles)])?;
    put_kind(text, report.kind)
}

// Adds addresses, each behind a blank.
fn put_addresses(text: &mut Vec<u8>, addresses: &[u32]) -> Result<(), Memory>
    ensures { OnOk result (text.new.items ≡ text.old.items ++ spaced (map address_word addresses.now)) }
{
    for at in addresses {
        put_fields(text, &[Field::Address(*at)])?;
    }
    Ok(())
}

fn put_copy(text: &mut Vec<u8>, line: &CopyLine) -> Result<(), Memory>
    ensures { OnOk result (text.new.items ≡ text.old.items ++ line_text (copy_line line.now)) }
{
    put_start(text, b"copy", &[Field::Word(line.name.as_bytes())])?;
    put_addresses(text, line.places.as_slice())?;
    end_line(text)
}

fn put_copies(text: &mut Vec<u8>, lines: &[CopyLine]) -> Result<(), Memory>
    ensures { OnOk result (text.new.items ≡ text.old.items ++ lines_text (map copy_line lines.now)) }
{
    for line in lines {
        put_copy(text, line)?;
    }
    Ok(())
}

// Adds numbers, each behind a blank.
fn put_numbers(text: &mut Vec<u8>, numbers: &[i128]) -> Result<(), Memory>
    ensures { OnOk result (text.new.items ≡ text.old.items ++ spaced (map signed_decimal numbers.now)) }
{
    for number in numbers {
        put_fields(text, &[Field::Signed(*number)])?;
    }
    Ok(())
}

fn put_column(text: &mut Vec<u8>, column: &Column) -> Result<(), Memory>
    ensures { OnOk result (text.new.items ≡ text.old.items ++ line_text (column_line column.now)) }
{
    put_start(text, b"column", &[Field::Signed(column.value)])?;
    put_numbers(text, column.totals.as_slice())?;
    end_line(text)
}

fn put_columns(text: &mut Vec<u8>, columns: &[Column]) -> Result<(), Memory>
    ensures { OnOk result (text.new.items ≡ text.old.items ++ lines_text (map column_line columns.now)) }
{
    for column in columns {
        put_column(text, column)?;
    }
    Ok(())
}

fn put_potential(text: &mut Vec<u8>, at: u32, number: i128) -> Result<(), Memory>
    ensures { OnOk result (text.new.items ≡ text.old.items ++ line_text (potential_line (at, number))) }
{
    put_line(
        text,
        b"potential",
        &[Field::Address(at), Field::Signed(number)],
    )
}

fn put_potentials(text: &mut Vec<u8>, potentials: &[(u32, i128)]) -> Result<(), Memory>
    ensures { OnOk result (text.new.items ≡ text.old.items ++ lines_text (map potential_line potentials.now)) }
{
    for potential in potentials {
        put_potential(text, potential.0, potential.1)?;
    }
    Ok(())
}

fn put_parts(text: &mut Vec<u8>, parts: &[Part]) -> Result<(), Memory>
    ensures { OnOk result (text.new.items ≡ text.old.items ++ lines_text (map flow_line parts.now)) }
{
    for part in parts {
        put_line(
            text,
            b"flow",
            &[
                Field::Address(part.at),
                Field::Number(u64::from(part.number)),
                Field::Signed(part.part),
            ],
        )?;
    }
    Ok(())
}

// Adds the certificate's other lines.
fn put_cert(text: &mut Vec<u8>, cert: &Cert) -> Result<(), Memory>
    ensures { OnOk result (text.new.items ≡ text.old.items ++ lines_text (cert_lines cert.now)) }
{
    put_line(text, b"scale", &[Field::Number(cert.scale)])?;
    put_potentials(text, cert.potentials.as_slice())?;
    put_line(text, b"unit", &[Field::Number(cert.flow.unit)])?;
    put_parts(text, cert.flow.parts.as_slice())?;
    Ok(())
}

fn put_share(text: &mut Vec<u8>, share: &Share) -> Result<(), Memory>
    ensures { OnOk result (text.new.items ≡ text.old.items ++ line_text (share_line share.now)) }
{
    let name = match &share.name {
        None => b"-",
        Some(name) => name.as_bytes(),
    };
    put_line(
        text,
        b"share",
        &[
            Field::Word(name),
            Field::Address(share.first),
            Field::Address(share.end),
            Field::Signed(share.part),
        ],
    )
}

fn put_shares(text: &mut Vec<u8>, shares: &[Share]) -> Result<(), Memory>
    ensures { OnOk result (text.new.items ≡ text.old.items ++ lines_text (map share_line shares.now)) }
{
    for share in shares {
        put_share(text, share)?;
    }
    Ok(())
}
