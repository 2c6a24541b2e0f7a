// How many bytes items take, and where the blocks of a function begin.
ghost use Rattle.std.specs.Prelude.{◌≡◌, ◌+◌, ◌<◌, ◌^◌, IfOk};
ghost use Rattle.asm_items.specs.Items.{form_size, jump_size, size, total};
ghost use Rattle.asm_items.specs.Placings.{blocks_size, starts_from};

use asm_items::{Form, Item};
use std::alloc::Global;
use wcc_base::{Items, Memory};

fn jump_bytes(far: bool) -> u32
    ensures { result ≡ jump_size far }
{
    if far { 8 } else { 4 }
}

fn branch_bytes(form: Form) -> u32
    ensures { result ≡ form_size form }
{
    match form {
        Form::Short => 4,
        Form::Inverted => 8,
        Form::Far => 12,
    }
}

/// How many bytes an item takes.
pub fn size_of(item: &Item) -> u32
    ensures { result ≡ size item.now }
{
    match item {
        Item::Single(_) => 4,
        Item::Jump { far, .. } => jump_bytes(*far),
        Item::Call { far, .. } => jump_bytes(*far),
        Item::Branch { form, .. } => branch_bytes(*form),
        Item::Return => 4,
        Item::Exit => 4,
    }
}

/// How many bytes items take in a row.
pub fn bytes_of(items: &[Item]) -> u32
    requires { total items.now < 2 ^ 32 }
    ensures { result ≡ total items.now }
{
    let mut bytes = 0;
    for item in items {
        bytes += size_of(item);
    }
    bytes
}

/// Where the blocks of a function begin that begins at an address.
pub fn starts_of(alloc: Global, at: u32, blocks: &[Items<Item>]) -> Result<Vec<u32>, Memory>
    requires { at + blocks_size blocks.now < 2 ^ 32 }
    ensures { IfOk result (λ starts. starts.items ≡ starts_from at blocks.now) }
{
    let mut starts = Vec::new(alloc);
    let mut next = at;
    for block in blocks {
        starts.push(next)?;
        next += bytes_of(block.as_slice());
    }
    Ok(starts)
}
