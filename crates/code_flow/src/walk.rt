// The walk from an entry.
ghost use Rattle.std.specs.Prelude.{◌≡◌, ◌<◌, ◌∷◌, [], length, Some, OnOk, IfOk};
ghost use Rattle.std.specs.List.Sorted.{IsSorted};
ghost use Rattle.std.specs.Ordering.{nat_cmp};
ghost use Rattle.code_flow_system.specs.Moves.{code_by};
ghost use Rattle.code_flow.specs.Places.{all_places, place_of};
ghost use Rattle.code_flow.specs.Walks.{targets, Sees, AreUnmarked, IsFresh, IsReach};

use crate::places::{PLACES, place};
use crate::ways::{behind, way_at};
use code_flow_system::Way;
use rv_core::Image;
use std::alloc::Global;
use wcc_base::Memory;

/// What a walk has seen: the places where code can stand are marked, and other addresses listed,
/// each as often as a move arrives there.
#[derive(Drop)]
pub struct Walk {
    pub marks: Vec<bool>,
    pub others: Vec<u32>,
    /// What is still to be visited.
    pub work: Vec<u32>,
}

/// So many places, of which none is marked.
pub fn unmarked(alloc: Global, places: usize) -> Result<Vec<bool>, Memory>
    ensures { IfOk result (λ v. AreUnmarked places v.items) }
{
    Ok(vec![in alloc; false; places]?)
}

impl Walk {
    /// A walk that has seen nothing.
    fn new(alloc: Global) -> Result<Walk, Memory>
        ensures { IfOk result IsFresh }
    {
        Ok(Walk {
            marks: unmarked(alloc, PLACES)?,
            others: Vec::new(alloc),
            work: Vec::new(alloc),
        })
    }

    /// Sees an address.
    fn see(&mut self, at: u32) -> Result<(), Memory>
        requires { length self.old.marks.items ≡ all_places }
        ensures { OnOk result (Sees (at ∷ []) self.old self.new) }
    {
        match place(at) {
            Some(place) => self.mark(place, at),
            None => {
                self.others.push(at)?;
                Ok(())
            }
        }
    }

    /// Marks the place of an address, which is still to be visited where it is new.
    fn mark(&mut self, place: usize, at: u32) -> Result<(), Memory>
        requires place { place_of at ≡ Some place }
        requires small { place < length self.old.marks.items }
        ensures { OnOk result (Sees (at ∷ []) self.old self.new) }
    {
        if !self.marks[place] {
            self.marks[place] = true;
            self.work.push(at)?;
        }
        Ok(())
    }

    /// Sees where a way arrives.
    fn follow(&mut self, way: Way, at: u32) -> Result<(), Memory>
        requires { length self.old.marks.items ≡ all_places }
        ensures { OnOk result (Sees (targets way at) self.old self.new) }
    {
        match way {
            Way::Next => self.see(behind(at)),
            Way::Branches(to) => {
                self.see(behind(at))?;
                self.see(to)
            }
            Way::Jumps(to) => self.see(to),
            Way::Calls(to) => {
                self.see(to)?;
                self.see(behind(at))
            }
            Way::Ends | Way::Strays => Ok(()),
        }
    }
}

/// All that is reached from the entry.
pub fn explore(alloc: Global, image: &Image, exits: &[u32]) -> Result<Walk, Memory>
    requires { IsSorted nat_cmp exits.now }
    ensures { IfOk result (IsReach (code_by image.now exits.now) image.now.entry) }
{
    let _segments = image.segments();
    let mut walk = Walk::new(alloc)?;
    walk.see(image.entry())?;
    while let Some(at) = walk.work.pop() {
        walk.follow(way_at(image, exits, at), at)?;
    }
    Ok(walk)
}

/// The same, with the addresses where no code can stand in order.
pub fn reach(alloc: Global, image: &Image, exits: &[u32]) -> Result<Walk, Memory>
    requires { IsSorted nat_cmp exits.now }
    ensures reach { IfOk result (IsReach (code_by image.now exits.now) image.now.entry) }
    ensures sorted { IfOk result (λ w. IsSorted nat_cmp w.others.items) }
{
    let mut walk = explore(alloc, image, exits)?;
    walk.others.sort_unstable();
    Ok(walk)
}
