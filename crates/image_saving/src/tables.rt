// Sets of registers, as tables.
ghost use Rattle.std.specs.Prelude.{◌≡◌};
ghost use Rattle.image_saving.specs.Tables.{place_marked, places_marked, keeps_place, kept_marked};

use super::sites::Site;
use low_ir::Place;

/// By register, whether it is in a set.
pub type Table = [bool; 24];

#[tactic(auto, using(crate::proofs::KeptLemmas::set_past))]
pub fn mark(table: &mut [bool], place: Place)
    ensures { table.new ≡ place_marked table.old place }
{
    match place {
        Place::Register(register) => {
            let register = register as usize;
            if register < table.len() {
                table[register] = true;
            }
        }
        Place::Slot(_) => {}
    }
}

pub fn mark_all(table: &mut [bool], places: &[Place])
    ensures { table.new ≡ places_marked table.old places.now }
{
    for place in places {
        mark(table, *place);
    }
}

fn keeps(site: &Site, place: Place) -> bool
    ensures { result ≡ keeps_place site.now.kept place }
{
    match place {
        Place::Register(register) => site.keeps(u32::from(register)),
        Place::Slot(_) => true,
    }
}

/// Marks the registers among places that a call keeps.
pub fn mark_kept(table: &mut [bool], site: &Site, places: &[Place])
    ensures { table.new ≡ kept_marked table.old site.now.kept places.now }
{
    for place in places {
        if keeps(site, *place) {
            mark(table, *place);
        }
    }
}
