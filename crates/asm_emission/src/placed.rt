// Operands and addresses over places.
ghost use Rattle.std.specs.Prelude.{◌≡◌, option_map};
ghost use Rattle.low_ir.specs.View as view;
ghost use Rattle.low_ir.specs.Places.{place_operand, place_base, place_address};
ghost use Rattle.asm_emission.specs.View.{place_at, operand_of, base_of, address_of};

use low_ir::object::Kind;
use low_ir::{Address, Base, Operand, Place};
use rv_core::Alu;

/// What an instruction reads: what stands at a place, or a word.
#[derive(Clone, Copy)]
pub enum PlacedOperand {
    At(Place),
    Constant(u32),
}

/// Where an address begins: at an array, or where the pointer at a place points to.
#[derive(Clone, Copy)]
pub enum PlacedBase {
    Object(u32),
    Pointer { place: Place, claim: u32 },
}

/// An address: its base, and so many bytes behind it, those at a place included, modulo 2^32.
#[derive(Clone, Copy)]
pub struct PlacedAddress {
    pub base: PlacedBase,
    pub offset: Option<Place>,
    pub displacement: u32,
}

/// An instruction that goes on behind itself.
#[derive(Clone, Copy)]
pub enum PlacedPlain {
    Set {
        into: Place,
        value: PlacedOperand,
    },
    Operate {
        operator: Alu,
        into: Place,
        left: PlacedOperand,
        right: PlacedOperand,
    },
    Point {
        into: Place,
        address: PlacedAddress,
    },
    Load {
        kind: Kind,
        into: Place,
        address: PlacedAddress,
    },
    Store {
        kind: Kind,
        address: PlacedAddress,
        value: PlacedOperand,
    },
    Put {
        value: PlacedOperand,
    },
    Get {
        into: Place,
    },
}

/// The place of a register. One that the list doesn't reach has the slot of its number.
pub fn place_of(places: &[Place], register: u32) -> Place
    ensures { result ≡ place_at places.now register }
{
    match places.get(register as usize) {
        Some(place) => *place,
        None => Place::Slot(register),
    }
}

pub fn place_operand(places: &[Place], operand: Operand) -> PlacedOperand
    ensures { operand_of result ≡ place_operand (place_at places.now) (view.operand_of operand) }
{
    match operand {
        Operand::Register(register) => PlacedOperand::At(place_of(places, register)),
        Operand::Constant(word) => PlacedOperand::Constant(word),
    }
}

fn place_base(places: &[Place], base: Base) -> PlacedBase
    ensures { base_of result ≡ place_base (place_at places.now) (view.base_of base) }
{
    match base {
        Base::Object(object) => PlacedBase::Object(object),
        Base::Pointer { register, claim } => PlacedBase::Pointer {
            place: place_of(places, register),
            claim,
        },
    }
}

/// The place of a register, where one is named.
pub fn place_some(places: &[Place], register: Option<u32>) -> Option<Place>
    ensures { result ≡ option_map (place_at places.now) register }
{
    match register {
        Some(register) => Some(place_of(places, register)),
        None => None,
    }
}

pub fn place_address(places: &[Place], address: Address) -> PlacedAddress
    ensures { address_of result ≡ place_address (place_at places.now) (view.address_of address) }
{
    PlacedAddress {
        base: place_base(places, address.base),
        offset: place_some(places, address.offset),
        displacement: address.displacement,
    }
}
