// The registers that instructions read, handed one by one to who wants them.
use low_ir::instruction::{Address, Base, End, Instr, Operand};
use wcc_base::Memory;

/// What is told of each register that is read.
pub trait Reader {
    fn read(&mut self, register: u32) -> Result<(), Memory>;
}

fn read_operand<R: Reader>(reader: &mut R, operand: Operand) -> Result<(), Memory> {
    match operand {
        Operand::Register(register) => reader.read(register),
        Operand::Constant(_) => Ok(()),
    }
}

fn read_address<R: Reader>(reader: &mut R, address: Address) -> Result<(), Memory> {
    if let Base::Pointer { register, .. } = address.base {
        reader.read(register)?;
    }
    if let Some(register) = address.offset {
        reader.read(register)?;
    }
    Ok(())
}

fn read_arguments<R: Reader>(reader: &mut R, arguments: &[Operand]) -> Result<(), Memory> {
    for argument in arguments {
        read_operand(reader, *argument)?;
    }
    Ok(())
}

fn read_both<R: Reader>(reader: &mut R, left: Operand, right: Operand) -> Result<(), Memory> {
    read_operand(reader, left)?;
    read_operand(reader, right)
}

fn read_store<R: Reader>(reader: &mut R, address: Address, value: Operand) -> Result<(), Memory> {
    read_address(reader, address)?;
    read_operand(reader, value)
}

pub fn read_instr<R: Reader>(reader: &mut R, instr: &Instr) -> Result<(), Memory> {
    match instr {
        Instr::Set { value, .. } => read_operand(reader, *value),
        Instr::Operate { left, right, .. } => read_both(reader, *left, *right),
        Instr::Point { address, .. } => read_address(reader, *address),
        Instr::Load { address, .. } => read_address(reader, *address),
        Instr::Store { address, value, .. } => read_store(reader, *address, *value),
        Instr::Put { value } => read_operand(reader, *value),
        Instr::Get { .. } => Ok(()),
        Instr::Call { arguments, .. } => read_arguments(reader, arguments),
    }
}

pub fn read_end<R: Reader>(reader: &mut R, end: End) -> Result<(), Memory> {
    match end {
        End::Jump { .. } => Ok(()),
        End::Branch { left, right, .. } => read_both(reader, left, right),
        End::Return { value } => read_operand(reader, value),
    }
}
