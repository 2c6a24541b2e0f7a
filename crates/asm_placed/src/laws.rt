// The laws of code that is written.
ghost use Rattle.asm_placed.specs.Laws.{CodeIsPlaced, ExitsAreListed};

use rv_core::Image;

/// What an image holds of functions in the chosen forms is placed as their graph wants it.
pub fn code_is_placed(image: &Image)
    ensures { CodeIsPlaced image.now }
{
    let _ = &image.segments();
}

/// Where the addresses of exits are listed, and no others, each block lists its exits.
pub fn exits_are_listed()
    ensures { ExitsAreListed }
{}
