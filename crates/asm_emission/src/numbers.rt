// Machine registers, and words and addresses in the immediates of instructions.
ghost use Rattle.std.specs.Prelude.{◌≡◌, ◌+◌, ◌<◌, ◌≤◌, ◌^◌, true};
ghost use Rattle.low_ir.specs.Places.{result_register};
ghost use Rattle.rv_core.specs.Instructions.{is_within};
ghost use Rattle.asm_program.specs.Numbers.{machine_register, is_near, is_beside, is_reached, is_short, upper_of, lower_of, reach_register, reach_offset, object_register, object_offset};

/// The return address.
pub const LINK: u8 = 1;
/// The base, which holds the address in the middle of the words that are one instruction away.
pub const BASE: u8 = 3;
/// What it holds.
pub const BASE_ADDRESS: u32 = 0x2000_0800;
/// The base for arrays that lie apart from those words.
pub const SECOND_BASE: u8 = 7;
/// The register of a value that goes to the environment or comes from a call.
pub const RESULT: u8 = 10;
/// The register that names a service of the environment.
pub const SERVICE: u8 = 17;
/// Free for a moment: for an address or a left operand.
pub const FIRST_FREE: u8 = 5;
/// Free for a moment: for what is added to an address, or a right operand.
pub const SECOND_FREE: u8 = 6;

/// The machine register of a number up to 24, which is that of x10.
pub fn machine_register(register: u8) -> u8
    requires { register ≤ result_register }
    ensures value { result ≡ machine_register register }
    ensures small { result < 32 }
{
    if register < 2 {
        2 * register + 2
    } else if register < 4 {
        register + 6
    } else if register < 10 {
        register + 7
    } else if register == 24 {
        RESULT
    } else {
        register + 8
    }
}

/// Whether an address is one instruction away from the base.
pub fn is_near(address: u64) -> bool
    ensures { result ≡ is_near address }
{
    0x2000_0000 <= address && address < 0x2000_1000
}

/// Whether an address is one instruction away from this one.
pub fn is_beside(from: u32, address: u64) -> bool
    requires { address < 2 ^ 36 }
    ensures { result ≡ is_beside from address }
{
    let from = u64::from(from);
    from <= address + 0x800 && address < from + 0x800
}

/// Whether an address is one instruction away from one of the bases, if the second one holds this.
pub fn is_reached(second: u32, address: u64) -> bool
    requires { address < 2 ^ 36 }
    ensures { result ≡ is_reached second address }
{
    is_beside(second, address) || is_near(address)
}

/// The part of a number whose low 12 bits are 0, so that the part of 12 bits with a sign is left.
pub fn upper_of(number: u64) -> u32
    requires { number < 2 ^ 36 }
    ensures { result ≡ upper_of number }
{
    ((number + 0x800) / 0x1000 * 0x1000 % 0x1_0000_0000) as u32
}

/// The part of a number of 12 bits with a sign.
pub fn lower_of(number: u64) -> i32
    requires { number < 2 ^ 36 }
    ensures value { result ≡ lower_of number }
    ensures short { is_within (2 ^ 11) result ≡ true }
{
    ((number + 0x800) % 0x1000) as i32 - 0x800
}

/// Whether a word is a number of 12 bits with a sign.
pub fn is_short(word: u32) -> bool
    ensures { result ≡ is_short word }
{
    upper_of(u64::from(word)) == 0
}

/// The register to which the rest of an address is added.
pub fn reach_register(free: u8, address: u64) -> u8
    requires { free < 32 }
    ensures value { result ≡ reach_register free address }
    ensures small { result < 32 }
{
    if is_near(address) { BASE } else { free }
}

/// That rest.
pub fn reach_offset(address: u64) -> i32
    requires { address < 2 ^ 36 }
    ensures value { result ≡ reach_offset address }
    ensures short { is_within (2 ^ 11) result ≡ true }
{
    if is_near(address) {
        (address as i64 - i64::from(BASE_ADDRESS)) as i32
    } else {
        lower_of(address)
    }
}

/// The register to which the rest of an address of an array is added, if the second base holds this.
pub fn object_register(second: u32, free: u8, address: u64) -> u8
    requires free { free < 32 }
    requires address { address < 2 ^ 36 }
    ensures value { result ≡ object_register second free address }
    ensures small { result < 32 }
{
    if is_beside(second, address) {
        SECOND_BASE
    } else {
        reach_register(free, address)
    }
}

/// That rest.
pub fn object_offset(second: u32, address: u64) -> i32
    requires { address < 2 ^ 36 }
    ensures value { result ≡ object_offset second address }
    ensures short { is_within (2 ^ 11) result ≡ true }
{
    if is_beside(second, address) {
        (address as i64 - i64::from(second)) as i32
    } else {
        reach_offset(address)
    }
}
