// The code with which a run begins and ends.
ghost use Rattle.std.specs.Prelude.{◌≡◌, ◌<◌, ◌++◌, ◌∷◌, [], pos, IfOk, OnOk};
ghost use Rattle.rv_core.specs.Instructions.{addi};
ghost use Rattle.asm_program.specs.Functions.{singles, based, bases_code, start_items};

use super::numbers::{BASE, BASE_ADDRESS, SECOND_BASE, SERVICE, lower_of};
use super::words::{add_number, emit, load_upper};
use asm_items::Item;
use rv_core::Instr;
use std::alloc::Global;
use wcc_base::{Items, Memory};

/// An instruction that does nothing.
pub fn no_operation() -> Instr
    ensures { result ≡ addi 0 0 (pos 0) }
{
    add_number(0, 0, 0)
}

/// An address comes into a base.
fn emit_based(code: &mut Vec<Item>, base: u8, address: u32) -> Result<(), Memory>
    requires { base < 32 }
    ensures { OnOk result (code.new.items ≡ code.old.items ++ singles (based base address)) }
{
    let number = u64::from(address);
    emit(code, load_upper(base, number))?;
    emit(code, add_number(base, base, lower_of(number)))
}

/// The bases get their addresses; the second one has 0 from the beginning.
fn emit_bases(code: &mut Vec<Item>, second: u32) -> Result<(), Memory>
    ensures { OnOk result (code.new.items ≡ code.old.items ++ singles (bases_code second)) }
{
    emit_based(code, BASE, BASE_ADDRESS)?;
    if second == 0 {
        return Ok(());
    }
    emit_based(code, SECOND_BASE, second)
}

fn start_block(alloc: Global, second: u32, main: u32) -> Result<Items<Item>, Memory>
    ensures { IfOk result (λ block. block ∷ [] ≡ start_items second main) }
{
    let mut items = Vec::new(alloc);
    emit_bases(&mut items, second)?;
    items.push(Item::Call {
        far: true,
        function: main,
    })?;
    emit(&mut items, add_number(SERVICE, 0, 0))?;
    items.push(Item::Exit)?;
    Ok(Items::new(items))
}

/// The start code, a function of one block: the bases get their addresses, the second one this, main is called, and its
/// value is that of the run.
pub fn start_items(alloc: Global, second: u32, main: u32) -> Result<Items<Items<Item>>, Memory>
    ensures { IfOk result (λ blocks. blocks ≡ start_items second main) }
{
    let mut blocks = Vec::new(alloc);
    blocks.push(start_block(alloc, second, main)?)?;
    Ok(Items::new(blocks))
}
