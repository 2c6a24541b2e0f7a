// The virtual registers of an activation.
ghost use Rattle.std.specs.Prelude.{◌≡◌, [], Some, None, map, slice_index_or, IfOk, if◌then◌else◌};
ghost use Rattle.low_ir.specs.Effects.{is_member};
ghost use Rattle.low_ir.specs.Runs.{operand_value, values, virtual, write_all, write_to};
ghost use Rattle.low_ir.specs.View.{address_of, base_of, claim_of, operand_of};
ghost use Rattle.low_eval.specs.Direct.{address_value, base_value, offset_value, pointer_within, word_of, word_value};
ghost use Rattle.low_eval.specs.Progress.{items_of};

use low_ir::{Address, Base, Operand, Value};
use std::alloc::Global;
use std::marker::Model;
use wcc_base::Memory;

/// An object, and so many bytes behind its first.
#[derive(Clone, Copy)]
pub struct Located {
    pub object: u32,
    pub bytes: u32,
}

/// The values of the registers; one that was not written yet has none.
#[derive(Drop)]
pub struct Bank {
    values: Vec<Option<Value>>,
}

impl Model for Bank {
    ghost use Rattle.low_ir.specs.Runs.{Bank as Values};

    ghost Value = { Values };

    ghost view = { λ b. b.values.items };
}

/// The word that a value is.
pub fn word_of(value: Option<Value>) -> Option<u32>
    ensures { result ≡ word_of value }
{
    match value {
        None => None,
        Some(Value::Word(word)) => Some(word),
        Some(Value::Pointer { .. }) => None,
    }
}

/// Whether an object is one of a claim.
fn is_member(claim: &[u32], object: u32) -> bool
    ensures { result ≡ is_member claim.now object }
{
    for claimed in claim {
        if *claimed == object {
            return true;
        }
    }
    false
}

fn is_claimed(claims: &[Vec<u32>], claim: u32, object: u32) -> bool
    ensures { result ≡ is_member (slice_index_or (map claim_of claims.now) claim []) object }
{
    match claims.get(claim as usize) {
        None => false,
        Some(objects) => is_member(objects, object),
    }
}

/// Where a pointer points, where that is into an object of the claim.
pub fn pointer_within(claims: &[Vec<u32>], claim: u32, value: Option<Value>) -> Option<Located>
    ensures { result ≡ pointer_within (slice_index_or (map claim_of claims.now) claim []) value }
{
    match value {
        None => None,
        Some(Value::Word(_)) => None,
        Some(Value::Pointer { object, bytes }) => {
            if is_claimed(claims, claim, object) {
                Some(Located { object, bytes })
            } else {
                None
            }
        }
    }
}

impl Bank {
    /// So many registers without values.
    pub fn new(alloc: Global, registers: u32) -> Result<Bank, Memory>
        ensures { IfOk result (λ b. b ≡ virtual.empty registers) }
    {
        Ok(Bank {
            values: vec![in alloc; None; registers as usize]?,
        })
    }

    pub fn read(&self, register: u32) -> Option<Value>
        ensures { result ≡ virtual.read self.now register }
    {
        match self.values.get(register as usize) {
            None => None,
            Some(value) => *value,
        }
    }

    pub fn write(&mut self, register: u32, value: Value) -> bool
        ensures { virtual.write self.old register value ≡ (if result then Some self.new else None) }
    {
        match self.values.get_mut(register as usize) {
            None => false,
            Some(held) => {
                *held = Some(value);
                true
            }
        }
    }

    /// Writes a value, where it is wanted.
    pub fn write_to(&mut self, into: Option<u32>, value: Value) -> bool
        ensures { write_to virtual self.old into value ≡ (if result then Some self.new else None) }
    {
        match into {
            None => true,
            Some(register) => self.write(register, value),
        }
    }

    pub fn operand(&self, operand: Operand) -> Option<Value>
        ensures { result ≡ operand_value virtual self.now (operand_of operand) }
    {
        match operand {
            Operand::Register(register) => self.read(register),
            Operand::Constant(word) => Some(Value::Word(word)),
        }
    }

    pub fn word(&self, operand: Operand) -> Option<u32>
        ensures { result ≡ word_value virtual self.now (operand_of operand) }
    {
        word_of(self.operand(operand))
    }

    fn base(&self, claims: &[Vec<u32>], base: Base) -> Option<Located>
        ensures { result ≡ base_value virtual (map claim_of claims.now) self.now (base_of base) }
    {
        match base {
            Base::Object(object) => Some(Located { object, bytes: 0 }),
            Base::Pointer { register, claim } => {
                pointer_within(claims, claim, self.read(register))
            }
        }
    }

    fn offset(&self, offset: Option<u32>) -> Option<u32>
        ensures { result ≡ offset_value virtual self.now offset }
    {
        match offset {
            None => Some(0),
            Some(register) => word_of(self.read(register)),
        }
    }

    pub fn address(&self, claims: &[Vec<u32>], address: Address) -> Option<Located>
        ensures { result ≡ address_value virtual (map claim_of claims.now) self.now (address_of address) }
    {
        let Some(base) = self.base(claims, address.base) else {
            return None;
        };
        match self.offset(address.offset) {
            None => None,
            Some(offset) => Some(Located {
                object: base.object,
                bytes: base
                    .bytes
                    .wrapping_add(offset)
                    .wrapping_add(address.displacement),
            }),
        }
    }

    pub fn values(&self, alloc: Global, operands: &[Operand]) -> Result<Option<Vec<Value>>, Memory>
        ensures { IfOk result (λ r. values virtual self.now (map operand_of operands.now) ≡ items_of r) }
    {
        let mut values = Vec::new(alloc);
        for operand in operands {
            match self.operand(*operand) {
                None => return Ok(None),
                Some(value) => values.push(value)?,
            }
        }
        Ok(Some(values))
    }

    /// Writes values to parameters, in order.
    pub fn write_all(&mut self, parameters: &[u32], values: &[Value]) -> bool
        ensures { write_all virtual (Some self.old) parameters.now values.now ≡ (if result then Some self.new else None) }
    {
        match parameters {
            [] => match values {
                [] => true,
                [_, ..] => false,
            },
            [parameter, parameters @ ..] => match values {
                [] => false,
                [value, values @ ..] => {
                    if self.write(*parameter, *value) {
                        self.write_all(parameters, values)
                    } else {
                        false
                    }
                }
            },
        }
    }
}
