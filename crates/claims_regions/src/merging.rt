// Lines that go on for as long as what is touched is the same.
ghost use Rattle.std.specs.Prelude.{◌≡◌, ◌++◌, IfOk, OnOk};
ghost use Rattle.claims_definition.specs.Lines.{same};
ghost use Rattle.claims_regions.specs.Merging.{alike, begun, done, merged, merged_behind};

use code_flow_system::Within;
use std::alloc::Global;
use wcc_base::Memory;

fn same(left: bool, right: bool) -> bool
    ensures { result ≡ same left right }
{
    if left { right } else { !right }
}

fn alike(line: Within, next: Within) -> bool
    ensures { result ≡ alike line next }
{
    same(line.flash, next.flash) && same(line.spm, next.spm) && same(line.ram, next.ram)
}

fn put_done(lines: &mut Vec<Within>, line: Within, next: Within) -> Result<(), Memory>
    ensures { OnOk result (lines.new.items ≡ lines.old.items ++ done line next) }
{
    if !alike(line, next) {
        lines.push(line)?;
    }
    Ok(())
}

fn begun(line: Within, next: Within) -> Within
    ensures { result ≡ begun line next }
{
    if alike(line, next) {
        return Within {
            first: line.first,
            end: next.end,
            flash: line.flash,
            spm: line.spm,
            ram: line.ram,
        };
    }
    next
}

fn put_all(lines: &mut Vec<Within>, first: Within, singles: &[Within]) -> Result<(), Memory>
    ensures { OnOk result (lines.new.items ≡ lines.old.items ++ merged_behind first singles.now) }
{
    let mut line = first;
    for next in singles {
        put_done(lines, line, *next)?;
        line = begun(line, *next);
    }
    lines.push(line)?;
    Ok(())
}

/// The lines of single loads and stores.
pub fn merged(alloc: Global, singles: &[Within]) -> Result<Vec<Within>, Memory>
    ensures { IfOk result (λ lines. lines.items ≡ merged singles.now) }
{
    let mut lines = Vec::new(alloc);
    if let Some(first) = singles.get(0) {
        put_all(&mut lines, *first, &singles[1..])?;
    }
    Ok(lines)
}
