// How far targets lie, and the forms that reach them.
ghost use Rattle.std.specs.Prelude.{◌≡◌, ◌+◌, ◌<◌, ◌≤◌, ◌^◌};
ghost use Rattle.rv_core.specs.Instructions.{is_within};
ghost use Rattle.asm_items.specs.Offsets.{offset};
ghost use Rattle.asm_forms.specs.Distances.{distance, is_far, form_of};

use asm_items::Form;

/// From one address of code to another.
pub fn offset_to(at: u32, to: u32) -> i32
    requires at { at ≤ 2 ^ 30 }
    requires to { to < 2 ^ 30 + 4 }
    ensures { result ≡ offset at to }
{
    to as i32 - at as i32
}

/// Whether a number is at least the negative of a bound and less than it.
pub fn is_within(bound: u32, offset: i32) -> bool
    requires { bound ≤ 2 ^ 20 }
    ensures { result ≡ is_within bound offset }
{
    let bound = bound as i32;
    -bound <= offset && offset < bound
}

fn distance_of(at: u32, end: u32, to: u32) -> i32
    requires at { at ≤ 2 ^ 30 }
    requires end { end ≤ 2 ^ 30 }
    requires to { to < 2 ^ 30 }
    ensures { result ≡ distance at end to }
{
    if at < to {
        offset_to(end, to + 4)
    } else {
        offset_to(at, to)
    }
}

/// Whether a target is too far for one jump of an item that stands between two addresses.
pub fn far(at: u32, end: u32, to: u32) -> bool
    requires at { at ≤ 2 ^ 30 }
    requires end { end ≤ 2 ^ 30 }
    requires to { to < 2 ^ 30 }
    ensures { result ≡ is_far at end to }
{
    !is_within(0x10_0000, distance_of(at, end, to))
}

/// The shortest form in which a branch between two addresses reaches its target.
pub fn form_to(at: u32, end: u32, to: u32) -> Form
    requires at { at + 4 ≤ 2 ^ 30 }
    requires end { end ≤ 2 ^ 30 }
    requires to { to < 2 ^ 30 }
    ensures { result ≡ form_of at end to }
{
    if is_within(0x1000, distance_of(at, end, to)) {
        Form::Short
    } else if far(at + 4, end, to) {
        Form::Far
    } else {
        Form::Inverted
    }
}
