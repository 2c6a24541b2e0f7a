// The accesses that touch one array alone.
ghost use Rattle.std.specs.Prelude.{◌≡◌, ◌+◌, ◌<◌, ◌^◌, ◌++◌, ◌∷◌, ℕ, [], None, map, slice_index_or, IfOk, OnOk};
ghost use Rattle.std.specs.List.{flat_map};
ghost use Rattle.asm_items.specs.Items.{total};
ghost use Rattle.asm_items.specs.Placings.{blocks_size};
ghost use Rattle.low_ir.specs.View.{claim_of};
ghost use Rattle.claims_definition.specs.Listed.{Laid, by_address};
ghost use Rattle.claims_definition.specs.Movables.{is_only, only_in};
ghost use Rattle.claims_lists.specs.Lists.{IsOf};
ghost use Rattle.claims_lists.specs.Marks.{places_among};
ghost use Rattle.claims_lists.specs.Places.{IsRoomy};
ghost use Rattle.claims_touches.specs.declared.touch.Touch.TheVariants.{Nothing};
ghost use Rattle.claims_touches.specs.Named.{AreTouches};
ghost use Rattle.claims_movables.specs.Alone.{access, alone, alone_by, alone_in, blocks_alone, items_alone};

use asm_forms::Layout;
use asm_items::Item;
use asm_writing::{bytes_of, size_of};
use claims_lists::{Laying, Marked, base_of, by_address, items_of};
use claims_touches::Touch;
use std::alloc::Global;
use wcc_base::{Items, Memory};

/// Whether all of these are this array.
fn is_only(array: u32, arrays: &[u32]) -> bool
    ensures { result ≡ is_only array arrays.now }
{
    for other in arrays {
        if *other != array {
            return false;
        }
    }
    true
}

/// The array that these all are, the first one and others.
fn alone_with(first: u32, others: &[u32]) -> Option<u32>
    ensures { result ≡ alone (first ∷ others.now) }
{
    if is_only(first, others) {
        return Some(first);
    }
    None
}

/// The array that all of these are.
fn alone(arrays: &[u32]) -> Option<u32>
    ensures { result ≡ alone arrays.now }
{
    match arrays.get(0) {
        Some(first) => alone_with(*first, &arrays[1..]),
        None => None,
    }
}

fn alone_by_claim(alloc: Global, claims: &[Vec<u32>]) -> Result<Vec<Option<u32>>, Memory>
    ensures { IfOk result (λ v. v.items ≡ map alone (map claim_of claims.now)) }
{
    let mut by_claim = Vec::new(alloc);
    for claim in claims {
        by_claim.push(alone(claim.as_slice()))?;
    }
    Ok(by_claim)
}

fn claim_at(claims: &[Option<u32>], claim: u32) -> Option<u32>
    ensures { result ≡ slice_index_or claims.now claim None }
{
    match claims.get(claim as usize) {
        Some(array) => *array,
        None => None,
    }
}

/// The array that is touched alone.
fn alone_in(claims: &[Option<u32>], touch: Touch) -> Option<u32>
    ensures { result ≡ alone_in claims.now touch }
{
    match touch {
        Touch::Nothing => None,
        Touch::Frame => None,
        Touch::Array(array) => Some(array),
        Touch::Claim(claim) => claim_at(claims, claim),
    }
}

fn put(accesses: &mut Vec<Marked>, at: u32, array: Option<u32>) -> Result<(), Memory>
    ensures { OnOk result (accesses.new.items ≡ accesses.old.items ++ access at array) }
{
    if let Some(array) = array {
        accesses.push(Marked { mark: array, at })?;
    }
    Ok(())
}

fn touch_at(touches: &[Touch], number: usize) -> Touch
    ensures { result ≡ slice_index_or touches.now number Nothing }
{
    match touches.get(number) {
        Some(touch) => *touch,
        None => Touch::Nothing,
    }
}

fn list_at(touches: &[Items<Touch>], number: usize) -> &[Touch]
    ensures { result.now ≡ slice_index_or touches.now number [] }
{
    match touches.get(number) {
        Some(touches) => touches.as_slice(),
        None => &[],
    }
}

fn lists_at(touches: &[Items<Items<Touch>>], number: usize) -> &[Items<Touch>]
    ensures { result.now ≡ slice_index_or touches.now number [] }
{
    match touches.get(number) {
        Some(touches) => touches.as_slice(),
        None => &[],
    }
}

fn put_items(
    accesses: &mut Vec<Marked>,
    claims: &[Option<u32>],
    at: u32,
    touches: &[Touch],
    items: &[Item],
) -> Result<(), Memory>
    requires { at + total items.now < 2 ^ 31 }
    ensures { OnOk result (accesses.new.items ≡ accesses.old.items ++ items_alone claims.now at touches.now 0 items.now) }
{
    let mut next = at;
    for (number, item) in items.iter().enumerate() {
        put(accesses, next, alone_in(claims, touch_at(touches, number)))?;
        next += size_of(item);
    }
    Ok(())
}

fn put_blocks(
    accesses: &mut Vec<Marked>,
    claims: &[Option<u32>],
    at: u32,
    touches: &[Items<Touch>],
    blocks: &[Items<Item>],
) -> Result<(), Memory>
    requires { at + blocks_size blocks.now < 2 ^ 31 }
    ensures { OnOk result (accesses.new.items ≡ accesses.old.items ++ blocks_alone claims.now at touches.now 0 blocks.now) }
{
    let mut next = at;
    for (number, block) in blocks.iter().enumerate() {
        let touches = list_at(touches, number);
        put_items(accesses, claims, next, touches, block.as_slice())?;
        next += bytes_of(block.as_slice());
    }
    Ok(())
}

fn put_function(
    accesses: &mut Vec<Marked>,
    claims: &[Option<u32>],
    layout: &Layout,
    touches: &[Items<Items<Touch>>],
    function: usize,
) -> Result<(), Memory>
    requires { IsRoomy layout.now }
    ensures { OnOk result (accesses.new.items ≡ accesses.old.items ++ alone_by claims.now touches.now layout.now function) }
{
    let blocks = items_of(layout, function);
    if blocks.len() == 0 {
        return Ok(());
    }
    let at = base_of(layout, function);
    put_blocks(accesses, claims, at, lists_at(touches, function), blocks)
}

fn accesses_by(
    alloc: Global,
    claims: &[Option<u32>],
    layout: &Layout,
    touches: &[Items<Items<Touch>>],
    order: &[usize],
) -> Result<Vec<Marked>, Memory>
    requires { IsRoomy layout.now }
    ensures { IfOk result (λ accesses. accesses.items ≡ flat_map (alone_by claims.now touches.now layout.now) order.now) }
{
    let mut accesses = Vec::new(alloc);
    for function in order {
        put_function(&mut accesses, claims, layout, touches, *function)?;
    }
    Ok(accesses)
}

/// The accesses that touch one array alone, each with that array, in the order of their addresses.
pub fn accesses(
    alloc: Global,
    laying: &Laying<'_>,
    touches: &[Items<Items<Touch>>],
) -> Result<Vec<Marked>, Memory>
    requires { IsRoomy laying.now.layout.now }
    ensures { IfOk result (λ accesses. (l : Laid) → IsOf laying.now l → AreTouches laying.now.code.now l.memory touches.now → (o : ℕ) → places_among o accesses.items ≡ flat_map (only_in l o) (by_address l)) }
{
    let claims = alone_by_claim(alloc, laying.code.low.claims.as_slice())?;
    let order = by_address(alloc, laying.placed, laying.layout.functions.len())?;
    let accesses = accesses_by(
        alloc,
        claims.as_slice(),
        laying.layout,
        touches,
        order.as_slice(),
    )?;
    Ok(accesses)
}
