// Laws of words, of instructions and of runs.
ghost use Rattle.std.specs.Prelude.{◌≡◌, ◌⊎◌, ℕ, suc, ◌+◌, ◌*◌, ◌%◌, ◌^◌, ◌≤◌, List, length, Some};
ghost use Rattle.rv_core.specs.declared.row.Width.{Width};
ghost use Rattle.rv_core.specs.Arithmetic.{byte_count};
ghost use Rattle.rv_core.specs.Memory.{Block, loaded, number_at, with_number, read_from, written_to};
ghost use Rattle.rv_core.specs.Stores.{IsStored, frames_of, AreBeside};
ghost use Rattle.rv_core.specs.Instructions.{Instruction};
ghost use Rattle.rv_core.specs.Words.{word_of, decode_of};
ghost use Rattle.rv_core.specs.Table.{Table};
ghost use Rattle.rv_core.specs.Machine.{Running, fetched, performed, done};
ghost use Rattle.rv_core.specs.Code.{instruction_at, instruction_in, word_in};
ghost use Rattle.rv_core.specs.Runs.{Setup, setup, mrun};
ghost use Rattle.rv_core.specs.Exits.{Finish, Exits};

use crate::{Image, Instr};

/// The word of an instruction decodes to it.
pub fn decode_of_encode(instr: &Instr)
    ensures { decode_of (word_of instr.now) ≡ Some instr.now }
{
    instr.fits_row();
}

/// A run has one ending: its output, its value and its cycles.
pub fn one_finish()
    ensures { (s : Setup) (f g : Finish) → Exits s f → Exits s g → f ≡ g }
{}

/// Code never changes: in each state of a run, what is fetched is what stands in the image, and
/// the machine performs it.
pub fn code_stays(image: &Image)
    ensures words { (t : Table) (input : List ℕ) (n at : ℕ) → fetched (mrun (setup image.now t input) n).state.world.memory at ≡ word_in image.now at }
    ensures instructions { (t : Table) (input : List ℕ) (n at : ℕ) → instruction_at (mrun (setup image.now t input) n).state.world.memory at ≡ instruction_in image.now at }
    ensures performs { (t : Table) (input : List ℕ) (n : ℕ) (i : Instruction) → (mrun (setup image.now t input) n).state.ending ≡ Running → instruction_in image.now (mrun (setup image.now t input) n).state.pc ≡ Some i
        → (mrun (setup image.now t input) (suc n)).state ≡ done t i (mrun (setup image.now t input) n).state (performed i (mrun (setup image.now t input) n).state) }
{
    let _ = &image.segments();
}

/// A number that was put is found at its place, and no other number of the bytes has changed.
pub fn number_behind_write()
    ensures same { (w : Width) (bytes : List ℕ) (k v : ℕ) → k + byte_count w ≤ length bytes → number_at w (with_number w bytes k v) k ≡ v % 2 ^ (8 * byte_count w) }
    ensures beside { (w r : Width) (bytes : List ℕ) (k v j : ℕ) → (j + byte_count r ≤ k) ⊎ (k + byte_count w ≤ j) → number_at r (with_number w bytes k v) j ≡ number_at r bytes j }
    ensures size { (w : Width) (bytes : List ℕ) (k v : ℕ) → length (with_number w bytes k v) ≡ length bytes }
{}

/// A store is found in one block; what was stored is read at its place, and what is read beside it
/// is as before.
pub fn read_behind_store()
    ensures one_block { (w : Width) (before : List Block) (at v : ℕ) (after : List Block) → written_to w before at v ≡ Some after → IsStored w at v before after }
    ensures same { (w : Width) (before : List Block) (at v n : ℕ) (after : List Block) → AreBeside (frames_of before) → written_to w before at v ≡ Some after → read_from (λ b. b.read) w before at ≡ Some n
        → read_from (λ b. b.read) w after at ≡ Some (v % 2 ^ (8 * byte_count w)) }
    ensures beside { (w r : Width) (before : List Block) (at v a : ℕ) (after : List Block) → (a + byte_count r ≤ at) ⊎ (at + byte_count w ≤ a) → written_to w before at v ≡ Some after
        → read_from (λ b. b.read) r after a ≡ read_from (λ b. b.read) r before a }
{}

/// The blocks of an image lie beside each other, and in each state of a run they lie as they were
/// loaded, with the same rights.
pub fn frames_stay(image: &Image)
    ensures frames { (t : Table) (input : List ℕ) (n : ℕ) → frames_of (mrun (setup image.now t input) n).state.world.memory ≡ frames_of (loaded image.now.segments) }
    ensures beside { AreBeside (frames_of (loaded image.now.segments)) }
{
    let _ = &image.segments();
}
