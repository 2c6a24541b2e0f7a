// Which loops the copies are of.
ghost use Rattle.std.specs.Prelude.{◌≡◌, ℕ, ◌<◌, length, map, All, IfOk, slice_index_or};
ghost use Rattle.high_pass.specs.Composing.{no_origin, origin_among, origin_within};
ghost use Rattle.high_pass.specs.Listing.{loop_entry};

use high_ir::LoopCopies;
use std::alloc::Global;
use wcc_base::Memory;

/// Which loop of the first program a loop is a copy of, and by which factor.
#[derive(Clone, Copy)]
pub struct Origin {
    pub old: u32,
    pub factor: u32,
}

/// Notes of which loop these are the copies.
fn note_origins(origins: &mut [Origin], entry: &LoopCopies)
    requires { All (λ l. l.id < length origins.old) entry.now.new.items }
    ensures { (k : ℕ) → k < length origins.old → slice_index_or origins.new k no_origin ≡ origin_within entry.now.old entry.now.new.items k (slice_index_or origins.old k no_origin) }
{
    for copy in &entry.new {
        origins[copy.id as usize] = Origin {
            old: entry.old,
            factor: copy.factor,
        };
    }
}

/// Of which loop of the first program each of so many loops is a copy, by its number; `whole` lists the copies of each.
pub fn origins_of(alloc: Global, whole: &[LoopCopies], loops: u32) -> Result<Vec<Origin>, Memory>
    requires { All (λ e. All (λ l. l.id < loops) e.new) (map loop_entry whole.now) }
    ensures count { IfOk result (λ v. length v.items ≡ loops) }
    ensures origins { IfOk result (λ v. (k : ℕ) → k < loops → slice_index_or v.items k no_origin ≡ origin_among (map loop_entry whole.now) k no_origin) }
{
    let mut origins = vec![in alloc; Origin { old: 0, factor: 0 }; loops as usize]?;
    for entry in whole {
        note_origins(&mut origins, entry);
    }
    Ok(origins)
}
