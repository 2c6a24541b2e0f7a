// What a call passes.
use asm_emission::PlacedOperand;
use low_ir::Place;

/// What a call passes: the places of the parameters, the arguments over places, and the registers among those places
/// that the call keeps.
#[derive(Drop)]
pub struct Passing {
    pub places: Vec<Place>,
    pub arguments: Vec<PlacedOperand>,
    pub kept: Vec<u8>,
}
