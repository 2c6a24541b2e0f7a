// The lines of the claims, each with its multiplier.
ghost use Rattle.std.specs.Prelude.{◌≡◌, ◌++◌, ◌∷◌, length, map, OnOk};
ghost use Rattle.report_words.specs.Words.{line_text, lines_text, spaced};
ghost use Rattle.report_text.specs.Lines.{exit_line, never_line, letters, region_line, loop_line, sum_words, more_terms, compare_word, fact_line, paired, claim_lines};

use code_flow_system::{Cert, Claims, FactClaim, LoopClaim, Never, Within};
use frac128::Sum;
use report_words::{Field, end_line, put_fields, put_line, put_start};
use wcc_base::{Compare, Memory};

fn put_exits(text: &mut Vec<u8>, exits: &[u32]) -> Result<(), Memory>
    ensures { OnOk result (text.new.items ≡ text.old.items ++ lines_text (map exit_line exits.now)) }
{
    for at in exits {
        put_line(text, b"exit", &[Field::Address(*at)])?;
    }
    Ok(())
}

fn put_never(text: &mut Vec<u8>, claim: &Never, by: i128) -> Result<(), Memory>
    ensures { OnOk result (text.new.items ≡ text.old.items ++ line_text (never_line claim.now by)) }
{
    put_line(
        text,
        b"never",
        &[
            Field::Number(u64::from(claim.source)),
            Field::Number(u64::from(claim.factor)),
            Field::Address(claim.at),
            Field::Signed(by),
        ],
    )
}

fn put_nevers(text: &mut Vec<u8>, claims: &[Never], by: &[i128]) -> Result<(), Memory>
    requires { length by.now ≡ length claims.now }
    ensures { OnOk result (text.new.items ≡ text.old.items ++ lines_text (paired never_line claims.now by.now)) }
{
    for i in 0..claims.len() {
        put_never(text, &claims[i], by[i])?;
    }
    Ok(())
}

// The letters of the regions that a line names.
fn region_letters(claim: &Within) -> &'static [u8]
    ensures { result.now ≡ letters claim.now }
{
    match (claim.flash, claim.spm, claim.ram) {
        (true, true, true) => b"fsr",
        (true, true, false) => b"fs",
        (true, false, true) => b"fr",
        (true, false, false) => b"f",
        (false, true, true) => b"sr",
        (false, true, false) => b"s",
        (false, false, true) => b"r",
        (false, false, false) => b"",
    }
}

fn put_regions(text: &mut Vec<u8>, claims: &[Within]) -> Result<(), Memory>
    ensures { OnOk result (text.new.items ≡ text.old.items ++ lines_text (map region_line claims.now)) }
{
    for claim in claims {
        put_line(
            text,
            b"region",
            &[
                Field::Address(claim.first),
                Field::Address(claim.end),
                Field::Word(region_letters(claim)),
            ],
        )?;
    }
    Ok(())
}

fn put_loop(text: &mut Vec<u8>, claim: &LoopClaim, by: (i128, i128)) -> Result<(), Memory>
    ensures { OnOk result (text.new.items ≡ text.old.items ++ line_text (loop_line claim.now by)) }
{
    put_line(
        text,
        b"loop",
        &[
            Field::Number(u64::from(claim.source)),
            Field::Number(u64::from(claim.factor)),
            Field::Number(u64::from(claim.min)),
            Field::Number(u64::from(claim.max)),
            Field::Address(claim.header),
            Field::Address(claim.back),
            Field::Signed(by.0),
            Field::Signed(by.1),
        ],
    )
}

fn put_loops(text: &mut Vec<u8>, claims: &[LoopClaim], by: &[(i128, i128)]) -> Result<(), Memory>
    requires { length by.now ≡ length claims.now }
    ensures { OnOk result (text.new.items ≡ text.old.items ++ lines_text (paired loop_line claims.now by.now)) }
{
    for i in 0..claims.len() {
        put_loop(text, &claims[i], by[i])?;
    }
    Ok(())
}

// Adds the terms behind the first.
fn put_more_terms(text: &mut Vec<u8>, terms: &[(u32, i64)]) -> Result<(), Memory>
    ensures { OnOk result (text.new.items ≡ text.old.items ++ spaced (more_terms terms.now)) }
{
    for term in terms {
        put_fields(text, &[Field::Word(b"+"), Field::Term(term.0, term.1)])?;
    }
    Ok(())
}

// Adds a sum.
fn put_sum(text: &mut Vec<u8>, sum: &Sum) -> Result<(), Memory>
    ensures { OnOk result (text.new.items ≡ text.old.items ++ spaced (sum_words sum.now)) }
{
    match sum.terms() {
        [] => put_fields(text, &[Field::Word(b"0")]),
        [first, rest @ ..] => {
            put_fields(text, &[Field::Term(first.0, first.1)])?;
            put_more_terms(text, rest)
        }
    }
}

fn compare_bytes(op: Compare) -> &'static [u8]
    ensures { result.now ≡ compare_word op }
{
    match op {
        Compare::AtMost => b"<=",
        Compare::AtLeast => b">=",
        Compare::Equal => b"=",
    }
}

// Adds the sign between two sums.
fn put_compare(text: &mut Vec<u8>, op: Compare) -> Result<(), Memory>
    ensures { OnOk result (text.new.items ≡ text.old.items ++ 32 ∷ compare_word op) }
{
    put_fields(text, &[Field::Word(compare_bytes(op))])
}

// Adds the two sides of a fact.
fn put_sides(text: &mut Vec<u8>, claim: &FactClaim) -> Result<(), Memory>
    ensures { OnOk result (text.new.items ≡ text.old.items ++ spaced (sum_words claim.now.left ++ compare_word claim.now.op ∷ sum_words claim.now.right)) }
{
    put_sum(text, &claim.left)?;
    put_compare(text, claim.op)?;
    put_sum(text, &claim.right)?;
    Ok(())
}

fn put_fact(text: &mut Vec<u8>, claim: &FactClaim, by: i128) -> Result<(), Memory>
    ensures { OnOk result (text.new.items ≡ text.old.items ++ line_text (fact_line claim.now by)) }
{
    put_start(text, b"fact", &[Field::Signed(by)])?;
    put_sides(text, claim)?;
    end_line(text)
}

fn put_facts(text: &mut Vec<u8>, claims: &[FactClaim], by: &[i128]) -> Result<(), Memory>
    requires { length by.now ≡ length claims.now }
    ensures { OnOk result (text.new.items ≡ text.old.items ++ lines_text (paired fact_line claims.now by.now)) }
{
    for i in 0..claims.len() {
        put_fact(text, &claims[i], by[i])?;
    }
    Ok(())
}

/// Adds the lines of the claims.
pub fn put_claims(text: &mut Vec<u8>, claims: &Claims, cert: &Cert) -> Result<(), Memory>
    requires nevers { length cert.now.nevers ≡ length claims.now.nevers }
    requires loops { length cert.now.loops ≡ length claims.now.loops }
    requires facts { length cert.now.facts ≡ length claims.now.facts }
    ensures { OnOk result (text.new.items ≡ text.old.items ++ lines_text (claim_lines claims.now cert.now)) }
{
    put_exits(text, claims.exits())?;
    put_nevers(text, claims.nevers(), cert.nevers.as_slice())?;
    put_regions(text, claims.regions())?;
    put_loops(text, claims.loops(), cert.loops.as_slice())?;
    put_facts(text, claims.facts(), cert.facts.as_slice())?;
    Ok(())
}
