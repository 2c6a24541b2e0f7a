// What instructions read and write.
use low_ir::{Address, Base, End, Instr, Operand};
use rv_core::Alu;

/// An instruction, but for the arguments of a call and the kind of what is loaded or stored.
#[derive(Clone, Copy)]
pub enum Act {
    Set {
        into: u32,
        value: Operand,
    },
    Operate {
        operator: Alu,
        into: u32,
        left: Operand,
        right: Operand,
    },
    Point {
        into: u32,
        address: Address,
    },
    Load {
        into: u32,
        address: Address,
    },
    Store {
        address: Address,
        value: Operand,
    },
    Put {
        value: Operand,
    },
    Get {
        into: u32,
    },
    Call {
        into: Option<u32>,
    },
}

pub fn act_of(instr: &Instr) -> Act {
    match instr {
        Instr::Set { into, value } => Act::Set {
            into: *into,
            value: *value,
        },
        Instr::Operate {
            operator,
            into,
            left,
            right,
        } => Act::Operate {
            operator: *operator,
            into: *into,
            left: *left,
            right: *right,
        },
        Instr::Point { into, address } => Act::Point {
            into: *into,
            address: *address,
        },
        Instr::Load { into, address, .. } => Act::Load {
            into: *into,
            address: *address,
        },
        Instr::Store { address, value, .. } => Act::Store {
            address: *address,
            value: *value,
        },
        Instr::Put { value } => Act::Put { value: *value },
        Instr::Get { into } => Act::Get { into: *into },
        Instr::Call { into, .. } => Act::Call { into: *into },
    }
}

/// The register that an instruction writes.
pub fn written(act: Act) -> Option<u32> {
    match act {
        Act::Set { into, .. } => Some(into),
        Act::Operate { into, .. } => Some(into),
        Act::Point { into, .. } => Some(into),
        Act::Load { into, .. } => Some(into),
        Act::Store { .. } => None,
        Act::Put { .. } => None,
        Act::Get { into } => Some(into),
        Act::Call { into } => into,
    }
}

pub fn register_of(operand: Operand) -> Option<u32> {
    match operand {
        Operand::Register(register) => Some(register),
        Operand::Constant(_) => None,
    }
}

fn pointer_of(base: Base) -> Option<u32> {
    match base {
        Base::Object(_) => None,
        Base::Pointer { register, .. } => Some(register),
    }
}

/// The registers that an instruction reads, but for the arguments of a call.
pub fn read_by(act: Act) -> [Option<u32>; 3] {
    match act {
        Act::Set { value, .. } => [register_of(value), None, None],
        Act::Operate { left, right, .. } => [register_of(left), register_of(right), None],
        Act::Point { address, .. } => [pointer_of(address.base), address.offset, None],
        Act::Load { address, .. } => [pointer_of(address.base), address.offset, None],
        Act::Store { address, value } => {
            [register_of(value), pointer_of(address.base), address.offset]
        }
        Act::Put { value } => [register_of(value), None, None],
        Act::Get { .. } => [None, None, None],
        Act::Call { .. } => [None, None, None],
    }
}

/// The registers that the end of a block reads.
pub fn read_at(end: End) -> [Option<u32>; 2] {
    match end {
        End::Jump { .. } => [None, None],
        End::Branch { left, right, .. } => [register_of(left), register_of(right)],
        End::Return { value } => [register_of(value), None],
    }
}

/// The blocks to which one leads.
pub fn nexts(end: End) -> [Option<u32>; 2] {
    match end {
        End::Jump { block } => [Some(block), None],
        End::Branch { taken, other, .. } => {
            if taken == other {
                [Some(taken), None]
            } else {
                [Some(taken), Some(other)]
            }
        }
        End::Return { .. } => [None, None],
    }
}

/// Whether an instruction only writes a register.
pub fn is_pure(act: Act) -> bool {
    match act {
        Act::Set { .. } => true,
        Act::Operate { .. } => true,
        Act::Point { .. } => true,
        Act::Load { .. } => true,
        _ => false,
    }
}

pub fn address_of(act: Act) -> Option<Address> {
    match act {
        Act::Point { address, .. } => Some(address),
        Act::Load { address, .. } => Some(address),
        Act::Store { address, .. } => Some(address),
        _ => None,
    }
}

/// The same with another address.
pub fn with_address(act: Act, new: Address) -> Act {
    match act {
        Act::Point { into, .. } => Act::Point { into, address: new },
        Act::Load { into, .. } => Act::Load { into, address: new },
        Act::Store { value, .. } => Act::Store {
            address: new,
            value,
        },
        _ => act,
    }
}

pub fn arguments_of(instr: &Instr) -> &[Operand] {
    match instr {
        Instr::Call { arguments, .. } => arguments.as_slice(),
        _ => &[],
    }
}
