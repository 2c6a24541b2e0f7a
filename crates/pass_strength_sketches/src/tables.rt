// Tables by register and by block.

pub fn flag_at(flags: &[bool], at: usize) -> bool {
    match flags.get(at) {
        None => false,
        Some(flag) => *flag,
    }
}

pub fn set_flag(flags: &mut [bool], at: usize, new: bool) {
    if let Some(flag) = flags.get_mut(at) {
        *flag = new;
    }
}

pub fn number_at(numbers: &[u32], at: usize) -> u32 {
    match numbers.get(at) {
        None => 0,
        Some(number) => *number,
    }
}

pub fn set_number(numbers: &mut [u32], at: usize, new: u32) {
    if let Some(number) = numbers.get_mut(at) {
        *number = new;
    }
}

pub fn add_one(numbers: &mut [u32], at: usize) {
    if let Some(number) = numbers.get_mut(at) {
        *number = number.saturating_add(1);
    }
}

/// What is listed for a place.
pub fn list_at(lists: &[Vec<u32>], at: usize) -> &[u32] {
    match lists.get(at) {
        None => &[],
        Some(list) => list.as_slice(),
    }
}
