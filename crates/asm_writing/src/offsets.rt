// How far jumps go, as their immediates say it.
ghost use Rattle.std.specs.Prelude.{◌≡◌, ◌<◌, ◌^◌};
ghost use Rattle.asm_items.specs.Offsets.{offset, upper_part, lower_part};

/// From one address of code to another.
pub fn offset_to(at: u32, to: u32) -> i32
    requires at { at < 2 ^ 30 }
    requires to { to < 2 ^ 30 }
    ensures { result ≡ offset at to }
{
    to as i32 - at as i32
}

/// The part of it whose low 12 bits are 0.
pub fn upper_to(at: u32, to: u32) -> i32
    requires at { at < 2 ^ 30 }
    requires to { to < 2 ^ 30 }
    ensures { result ≡ upper_part at to }
{
    let raised = to + 0x4000_0800 - at;
    (i64::from(raised / 0x1000 * 0x1000) - 0x4000_0000) as i32
}

/// The part of 12 bits with a sign.
pub fn lower_to(at: u32, to: u32) -> i32
    requires at { at < 2 ^ 30 }
    requires to { to < 2 ^ 30 }
    ensures { result ≡ lower_part at to }
{
    let raised = to + 0x4000_0800 - at;
    (raised % 0x1000) as i32 - 0x800
}
