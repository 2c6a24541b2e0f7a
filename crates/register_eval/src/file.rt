// What the places of an activation hold.
ghost use Rattle.std.specs.Prelude.{◌≡◌, ◌<◌, ◌/◌, ◌%◌, ◌^◌, ◌==◌, None, Some, map, option_map, slice_index_or, slice_set, true, IfOk, if◌then◌else◌};
ghost use Rattle.low_ir.specs.Places.{kept_of, machine_registers, place_address, place_base, place_in, place_operand, places, registers_of, unset_if};
ghost use Rattle.low_ir.specs.Runs.{operand_value, values, write_all, write_to};
ghost use Rattle.low_ir.specs.View.{address_of, base_of, claim_of, operand_of};
ghost use Rattle.low_eval.specs.Direct.{address_value, base_value, offset_value, word_value};
ghost use Rattle.low_eval.specs.Progress.{items_of};
ghost use Rattle.register_eval.specs.Tables.{table_of};

use super::table::Table;
use low_eval::{Located, pointer_within, word_of};
use low_ir::{Address, Base, Operand, Place, Value};
use std::alloc::Global;
use std::marker::Model;
use wcc_base::Memory;

/// How many machine registers can hold values over calls; there is one more, the result register.
const REGISTERS: u32 = 24;

/// The machine registers, and the slots of the frame; one that holds nothing has no value.
#[derive(Drop)]
pub struct File {
    registers: Vec<Option<Value>>,
    slots: Vec<Option<Value>>,
}

impl Model for File {
    ghost use Rattle.low_ir.specs.Places.{File as Stores};

    ghost Value = { Stores };

    ghost view = { λ f. record { registers = f.registers.items; slots = f.slots.items } };
}

fn value_in(values: &[Option<Value>], number: u32) -> Option<Value>
    ensures { result ≡ slice_index_or values.now number None }
{
    match values.get(number as usize) {
        None => None,
        Some(value) => *value,
    }
}

impl File {
    /// No values, with so many slots.
    pub fn new(alloc: Global, slots: u32) -> Result<File, Memory>
        ensures { IfOk result (λ f. f ≡ places.empty slots) }
    {
        let registers = vec![in alloc; None; REGISTERS as usize + 1]?;
        let slots = vec![in alloc; None; slots as usize]?;
        Ok(File { registers, slots })
    }

    pub fn read(&self, place: Place) -> Option<Value>
        ensures { result ≡ places.read self.now place }
    {
        match place {
            Place::Register(number) => value_in(&self.registers, u32::from(number)),
            Place::Slot(number) => value_in(&self.slots, number),
        }
    }

    pub fn write(&mut self, place: Place, value: Value) -> bool
        ensures { places.write self.old place value ≡ (if result then Some self.new else None) }
    {
        match place {
            Place::Register(number) => match self.registers.get_mut(number as usize) {
                None => false,
                Some(held) => {
                    *held = Some(value);
                    true
                }
            },
            Place::Slot(number) => match self.slots.get_mut(number as usize) {
                None => false,
                Some(held) => {
                    *held = Some(value);
                    true
                }
            },
        }
    }

    /// Forgets the result register, which the environment takes.
    pub fn unset_result(&mut self)
        ensures { self.new ≡ unset_if true self.old }
    {
        match self.registers.get_mut(REGISTERS as usize) {
            None => {}
            Some(held) => *held = None,
        }
    }

    /// Writes a value, where it is wanted.
    pub fn write_to(&mut self, into: Option<Place>, value: Value) -> bool
        ensures { write_to places self.old into value ≡ (if result then Some self.new else None) }
    {
        match into {
            None => true,
            Some(place) => self.write(place, value),
        }
    }

    /// Forgets the machine registers that aren't in the mask.
    pub fn keep(&mut self, alloc: Global, mask: u32) -> Result<(), Memory>
        ensures { IfOk result (λ _. self.new ≡ places.keep (registers_of machine_registers mask) self.old) }
    {
        let kept = kept_registers(alloc, &self.registers, mask)?;
        self.registers = kept;
        Ok(())
    }

    pub fn operand(&self, table: Table<'_>, operand: Operand) -> Option<Value>
        ensures { result ≡ operand_value places self.now (place_operand (place_in (table_of table.entry)) (operand_of operand)) }
    {
        match operand {
            Operand::Register(register) => self.read(table.place(register)),
            Operand::Constant(word) => Some(Value::Word(word)),
        }
    }

    pub fn word(&self, table: Table<'_>, operand: Operand) -> Option<u32>
        ensures { result ≡ word_value places self.now (place_operand (place_in (table_of table.entry)) (operand_of operand)) }
    {
        word_of(self.operand(table, operand))
    }

    fn base(&self, table: Table<'_>, claims: &[Vec<u32>], base: Base) -> Option<Located>
        ensures { result ≡ base_value places (map claim_of claims.now) self.now (place_base (place_in (table_of table.entry)) (base_of base)) }
    {
        match base {
            Base::Object(object) => Some(Located { object, bytes: 0 }),
            Base::Pointer { register, claim } => {
                pointer_within(claims, claim, self.read(table.place(register)))
            }
        }
    }

    fn offset(&self, table: Table<'_>, offset: Option<u32>) -> Option<u32>
        ensures { result ≡ offset_value places self.now (option_map (place_in (table_of table.entry)) offset) }
    {
        match offset {
            None => Some(0),
            Some(register) => word_of(self.read(table.place(register))),
        }
    }

    pub fn address(
        &self,
        table: Table<'_>,
        claims: &[Vec<u32>],
        address: Address,
    ) -> Option<Located>
        ensures { result ≡ address_value places (map claim_of claims.now) self.now (place_address (place_in (table_of table.entry)) (address_of address)) }
    {
        let Some(base) = self.base(table, claims, address.base) else {
            return None;
        };
        match self.offset(table, address.offset) {
            None => None,
            Some(offset) => Some(Located {
                object: base.object,
                bytes: base
                    .bytes
                    .wrapping_add(offset)
                    .wrapping_add(address.displacement),
            }),
        }
    }

    pub fn values(
        &self,
        alloc: Global,
        table: Table<'_>,
        operands: &[Operand],
    ) -> Result<Option<Vec<Value>>, Memory>
        ensures { IfOk result (λ r. values places self.now (map (place_operand (place_in (table_of table.entry))) (map operand_of operands.now)) ≡ items_of r) }
    {
        let mut values = Vec::new(alloc);
        for operand in operands {
            match self.operand(table, *operand) {
                None => return Ok(None),
                Some(value) => values.push(value)?,
            }
        }
        Ok(Some(values))
    }

    /// Writes values to parameters, in order.
    pub fn write_all(&mut self, table: Table<'_>, parameters: &[u32], values: &[Value]) -> bool
        ensures { write_all places (Some self.old) (map (place_in (table_of table.entry)) parameters.now) values.now ≡ (if result then Some self.new else None) }
    {
        match parameters {
            [] => match values {
                [] => true,
                [_, ..] => false,
            },
            [parameter, parameters @ ..] => match values {
                [] => false,
                [value, values @ ..] => {
                    if self.write(table.place(*parameter), *value) {
                        self.write_all(table, parameters, values)
                    } else {
                        false
                    }
                }
            },
        }
    }
}

/// Whether a register is in a mask.
fn is_kept(mask: u32, number: u32) -> bool
    requires { number < 32 }
    ensures { result ≡ (mask / 2 ^ number % 2 == 1) }
{
    (mask >> number) % 2 == 1
}

/// Keeps the value of a register, if it is in the mask.
fn keep_one(kept: &mut Vec<Option<Value>>, values: &[Option<Value>], mask: u32, number: u32)
    requires { number < 32 }
    ensures { kept.new.items ≡ (if mask / 2 ^ number % 2 == 1 then slice_set kept.old.items number (slice_index_or values.now number None) else kept.old.items) }
{
    if !is_kept(mask, number) {
        return;
    }
    match kept.get_mut(number as usize) {
        None => {}
        Some(held) => *held = value_in(values, number),
    }
}

/// The values of the registers of a mask, the others without one.
#[tactic(auto, using(crate::proofs::Kept::one_more))]
fn kept_registers(
    alloc: Global,
    values: &[Option<Value>],
    mask: u32,
) -> Result<Vec<Option<Value>>, Memory>
    ensures { IfOk result (λ r. r.items ≡ kept_of (registers_of machine_registers mask) values.now) }
{
    let mut kept = vec![in alloc; None; values.len()]?;
    for number in 0..REGISTERS {
        keep_one(&mut kept, values, mask, number);
    }
    Ok(kept)
}
