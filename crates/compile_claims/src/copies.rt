// Copy lines.
ghost use Rattle.std.specs.Prelude.{◌≡◌, length, map, IfOk};
ghost use Rattle.std.specs.List.{flat_map};
ghost use Rattle.c_tree.specs.Names.{name_of};
ghost use Rattle.high_pass.specs.Listing.{mark_entry};
ghost use Rattle.compile_claims.specs.Places.{places_at};
ghost use Rattle.compile_claims.specs.CopyLines.{AreLinesOf, IsLineOf};

use crate::places::places_at;
use c_tree::expression::NameId;
use high_ir::MarkCopies;
use report_text::CopyLine;
use std::alloc::Global;
use wcc_base::{Items, Memory, Text};

/// A copy of a name.
pub fn name_text(alloc: Global, names: &[Text], id: NameId) -> Result<Text, Memory>
    ensures { IfOk result (λ t. t ≡ name_of names.now id.0) }
{
    let bytes = match names.get(id.0 as usize) {
        Some(name) => Vec::from_slice(alloc, name.as_bytes())?,
        None => Vec::new(alloc),
    };
    Ok(Text::new(bytes))
}

/// The addresses of all these marks, mark by mark.
fn places_of(alloc: Global, places: &[Items<u32>], marks: &[u32]) -> Result<Vec<u32>, Memory>
    ensures { IfOk result (λ v. v.items ≡ flat_map (places_at places.now) marks.now) }
{
    let mut all = Vec::new(alloc);
    for mark in marks {
        all.extend_from_slice(places_at(places, *mark))?;
    }
    Ok(all)
}

fn copy_line(
    alloc: Global,
    names: &[Text],
    id: NameId,
    copies: &MarkCopies,
    places: &[Items<u32>],
) -> Result<CopyLine, Memory>
    ensures { IfOk result (IsLineOf names.now places.now id copies.now.new.items) }
{
    let mut places = places_of(alloc, places, &copies.new)?;
    places.sort_unstable();
    let name = name_text(alloc, names, id)?;
    Ok(CopyLine {
        name,
        places: Items::new(places),
    })
}

/// The copy lines of functions or markers, by the copies of the mark of each.
pub fn copy_lines(
    alloc: Global,
    names: &[Text],
    counted: &[NameId],
    copies: &[MarkCopies],
    places: &[Items<u32>],
) -> Result<Vec<CopyLine>, Memory>
    requires { length copies.now ≡ length counted.now }
    ensures { IfOk result (λ v. AreLinesOf names.now places.now counted.now (map mark_entry copies.now) v.items) }
{
    let mut lines = Vec::new(alloc);
    for i in 0..counted.len() {
        let line = copy_line(alloc, names, counted[i], &copies[i], places)?;
        lines.push(line)?;
    }
    Ok(lines)
}
