// Tables of flags by number.

pub fn set_flag(flags: &mut [bool], at: u32) {
    if let Some(flag) = flags.get_mut(at as usize) {
        *flag = true;
    }
}

pub fn flag_at(flags: &[bool], at: u32) -> bool {
    match flags.get(at as usize) {
        None => false,
        Some(flag) => *flag,
    }
}
