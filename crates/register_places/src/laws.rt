// What is proved, by calls with empty bodies.
ghost use Rattle.std.specs.Prelude.{◌≡◌, ℕ, List, [], ◌∷◌, Some, None, map};
ghost use Rattle.low_ir.specs.Code.{Block, Low, Note};
ghost use Rattle.low_ir.specs.Example.{example};
ghost use Rattle.low_ir.specs.Places.{Assignment, assignment, in_slots, placed, prun};
ghost use Rattle.low_ir.specs.Placings.{assignment_of};
ghost use Rattle.low_ir.specs.Programs.{low_of};
ghost use Rattle.low_ir.specs.Runs.{lrun};
ghost use Rattle.low_ir.specs.Spacing.{Carries, Covers, IsAssignment, IsSafe, IsSpaced};
ghost use Rattle.register_places.specs.Rounds.{RoundsCover};
ghost use Rattle.register_places.specs.Sharing.{in_registers, sharing, value};
ghost use Rattle.low_ir.specs.Formed.{IsLow};
ghost use Rattle.register_places.specs.Totals.{TotalsKept};
ghost use Rattle.register_places.specs.RoomLaws.{PlacesKeepReach, PlacesKeepRoom, PlacesKeepWeight};

use low_ir::LowReg;

/// Where what is written is no place of another register that is live behind it, each good run over
/// virtual registers is one over places.
pub fn places_carry()
    ensures { (a : Assignment) (p : Low) → IsSafe a p → Carries a p }
{}

/// The same where registers that live together have different places.
pub fn intervals_carry()
    ensures { (a : Assignment) (p : Low) → IsAssignment a p → Carries a p }
{}

/// An assignment may be made from any intervals that cover those of the registers.
pub fn intervals_suffice()
    ensures { (a : Assignment) (p : Low) (lo : ℕ → ℕ → ℕ) (hi : ℕ → ℕ → ℕ) → Covers lo hi p → IsSpaced lo hi a p → IsAssignment a p }
{}

/// Once a round of liveness finds nothing new, no longer way does.
pub fn rounds_cover()
    ensures { (bs : List (Block ℕ Note)) (v : ℕ) (n : ℕ) → RoundsCover bs v n }
{}

/// With each register in a slot of its own, each good run over virtual registers is one over slots.
pub fn slots_carry()
    ensures { (p : Low) → Carries (assignment (map in_slots p.functions)) p }
{}

/// Each good run of a program with places is one over its places.
pub fn code_carries(code: &LowReg)
    ensures { Carries (assignment_of code.now) (low_of code.now.low) }
{}

/// The sum of three squares, by a loop with a call. Its two live registers have to be kept, and to be
/// two.
pub fn example_runs()
    ensures low { value (lrun example [] 40) ≡ Some 14 }
    ensures placed { value (prun (placed (in_registers (0 ∷ 1 ∷ [])) example) [] 40) ≡ Some 14 }
    ensures kept { value (prun (placed (in_registers (1 ∷ [])) example) [] 40) ≡ None }
    ensures shared { value (prun (placed (sharing (1 ∷ [])) example) [] 40) ≡ Some 0 }
{}

/// Bounds of each entry of a loop are bounds of all its entries together.
pub fn loops_keep_totals()
    ensures { (p : Low) → IsLow p → TotalsKept p }
{}

/// A program over places takes as many machine instructions.
pub fn places_keep_room()
    ensures { PlacesKeepRoom }
{}

/// It may execute as many.
pub fn places_keep_weight()
    ensures { PlacesKeepWeight }
{}

/// It may pass each mark as often.
pub fn places_keep_reach()
    ensures { PlacesKeepReach }
{}
