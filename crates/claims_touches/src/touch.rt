// What an item touches.
ghost use Rattle.std.specs.Prelude.{◌≡◌, ◌++◌, IfOk, OnOk};
ghost use Rattle.rv_core.specs.Table.{accesses};
ghost use Rattle.asm_emission.specs.View.{base_of};
ghost use Rattle.claims_touches.specs.Named.{base_name, frame_name, item_name, item_names};

use asm_emission::PlacedBase;
use asm_items::Item;
use rv_core::Class;
use std::alloc::Global;
use wcc_base::{Items, Memory};

/// What an item touches: no memory, a word of a frame, an array, or one of the arrays of a claim.
#[derive(Clone, Copy)]
pub enum Touch {
    Nothing,
    Frame,
    Array(u32),
    Claim(u32),
}

fn class_touch(class: Class) -> Touch
    ensures { result ≡ frame_name (accesses class) }
{
    match class {
        Class::Plain => Touch::Nothing,
        Class::Multiply => Touch::Nothing,
        Class::Divide => Touch::Nothing,
        Class::Load => Touch::Frame,
        Class::Store => Touch::Frame,
        Class::Branch => Touch::Nothing,
        Class::Jump => Touch::Nothing,
        Class::System => Touch::Nothing,
    }
}

/// What an item touches that accesses no array.
fn item_touch(item: Item) -> Touch
    ensures { result ≡ item_name item }
{
    match item {
        Item::Single(instr) => class_touch(instr.op().row().class),
        Item::Jump { .. } => Touch::Nothing,
        Item::Call { .. } => Touch::Nothing,
        Item::Branch { .. } => Touch::Nothing,
        Item::Return => Touch::Nothing,
        Item::Exit => Touch::Nothing,
    }
}

/// What an access touches that has this base.
pub fn base_touch(base: PlacedBase) -> Touch
    ensures { result ≡ base_name (base_of base) }
{
    match base {
        PlacedBase::Object(object) => Touch::Array(object),
        PlacedBase::Pointer { claim, .. } => Touch::Claim(claim),
    }
}

/// What items touch that access no array, behind others.
pub fn put_items(touches: &mut Vec<Touch>, items: &[Item]) -> Result<(), Memory>
    ensures { OnOk result (touches.new.items ≡ touches.old.items ++ item_names items.now) }
{
    for item in items {
        touches.push(item_touch(*item))?;
    }
    Ok(())
}

/// What items touch that access no array.
pub fn item_touches(alloc: Global, items: &[Item]) -> Result<Items<Touch>, Memory>
    ensures { IfOk result (λ touches. touches ≡ item_names items.now) }
{
    let mut touches = Vec::new(alloc);
    put_items(&mut touches, items)?;
    Ok(Items::new(touches))
}
