// The budgets of a program on its way.
ghost use Rattle.std.specs.Prelude.{◌≡◌};
ghost use Rattle.wcc_base.specs.Budgets.{most_operations, most_depth, most_locals, spare_room, most_instructions};

/// Operations in the high form.
pub const MOST_OPERATIONS: u32 = 98_304;

/// How deep the body of a function is in the high form.
pub const MOST_DEPTH: u64 = 1_024;

/// Bytes that the local variables and arrays of all functions take in the high form.
pub const MOST_LOCALS: u64 = 524_288;

/// Machine instructions that passes over the low form may make.
pub const SPARE_ROOM: u64 = 16 * (MOST_OPERATIONS as u64);

/// Machine instructions in all.
pub const MOST_INSTRUCTIONS: u64 = SPARE_ROOM + 64 * 256;

/// The constants are what the definitions say.
pub fn budgets_agree()
    ensures operations { MOST_OPERATIONS ≡ most_operations }
    ensures depth { MOST_DEPTH ≡ most_depth }
    ensures locals { MOST_LOCALS ≡ most_locals }
    ensures spare { SPARE_ROOM ≡ spare_room }
    ensures instructions { MOST_INSTRUCTIONS ≡ most_instructions }
{}
