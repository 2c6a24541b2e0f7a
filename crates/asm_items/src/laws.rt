// Laws of code that stands in an image.
ghost use Rattle.code_flow_system.specs.Moves.{Code};
ghost use Rattle.asm_items.specs.Standing.{StandsIn, LinksNone, ItemsStand};
ghost use Rattle.asm_items.specs.Outcomes.{KeepsPromises};

use rv_core::Image;

/// What a segment of code was filled with is fetched at its addresses.
pub fn code_stands(image: &Image)
    ensures { StandsIn image.now }
{
    let _ = &image.segments();
}

/// Where no AUIPC of x1 is among the instructions of an image, no return is taken for a far jump.
pub fn links_none(image: &Image)
    ensures { LinksNone image.now }
{
    let _ = &image.segments();
}

/// Items stand where their instructions stand in a row.
pub fn items_stand()
    ensures { ItemsStand }
{}

/// Each word of a block that stands in its place goes where the block promises: to a later word of it,
/// to a block that may follow, or to a function that it may call.
pub fn blocks_keep_promises()
    ensures { (c : Code) → KeepsPromises c }
{}
