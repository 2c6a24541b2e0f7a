// Which scalars get registers. Nothing is proved of it: any choice is right that is checked.
use super::flags::{flag_at, set_flag};
use super::residents::Resident;
use super::ways::{Beginning, beginning_of, fewest, is_certain};
use low_ir::object::{Kind, Object, Storage};
use low_ir::{Address, Base, Block, Function, Instr, Low};
use low_parts::kinds::same_kind;
use std::alloc::Global;
use wcc_base::Memory;

/// How many scalars of a function get registers.
const MOST: usize = 8;

/// What an access outside all loops and what loads and stores at both ends count.
const LEAST: u64 = 2;

/// How many scalars of loops that a run may pass by are looked at.
const TRIED: usize = 16;

/// What an access in a block counts, and whether each run comes to it or to the loop around it.
#[derive(Clone, Copy)]
struct Worth {
    each: u64,
    certain: bool,
}

/// By object: what a function, or one that it calls, may touch; and what loops access.
#[derive(Drop)]
struct Seen {
    banned: Vec<bool>,
    written: Vec<bool>,
    uses: Vec<u64>,
    /// What loops access that a run may pass by.
    others: Vec<u64>,
}

fn is_set(flags: &[bool], at: usize) -> bool {
    match flags.get(at) {
        None => false,
        Some(flag) => *flag,
    }
}

fn set_flags(flags: &mut [bool], others: &[bool]) {
    for (at, other) in others.iter().enumerate() {
        if *other {
            if let Some(flag) = flags.get_mut(at) {
                *flag = true;
            }
        }
    }
}

fn set_claimed(flags: &mut [bool], claims: &[Vec<u32>], claim: u32) {
    if let Some(objects) = claims.get(claim as usize) {
        for object in objects {
            set_flag(flags, *object);
        }
    }
}

fn set_base(flags: &mut [bool], claims: &[Vec<u32>], base: Base) {
    match base {
        Base::Object(object) => set_flag(flags, object),
        Base::Pointer { claim, .. } => set_claimed(flags, claims, claim),
    }
}

fn count(uses: &mut [u64], object: u32, worth: u64) {
    if let Some(own) = uses.get_mut(object as usize) {
        *own = own.saturating_add(worth);
    }
}

fn set_called(flags: &mut [bool], rows: &[Vec<bool>], function: u32) {
    if let Some(row) = rows.get(function as usize) {
        set_flags(flags, row);
    }
}

fn tell(row: &mut [bool], claims: &[Vec<u32>], rows: &[Vec<bool>], instr: &Instr) {
    match instr {
        Instr::Load { address, .. } => set_base(row, claims, address.base),
        Instr::Store { address, .. } => set_base(row, claims, address.base),
        Instr::Call { function, .. } => set_called(row, rows, *function),
        _ => {}
    }
}

/// What a function may touch, where it is known of those of lower numbers.
fn row_of(
    alloc: Global,
    low: &Low,
    rows: &[Vec<bool>],
    function: &Function,
) -> Result<Vec<bool>, Memory> {
    let mut row = vec![in alloc; false; low.objects.len()]?;
    for block in &function.blocks {
        for instr in &block.code {
            tell(&mut row, &low.claims, rows, instr);
        }
    }
    Ok(row)
}

/// By function and object: whether the function, or one that it calls, may touch the object.
pub fn rows_of(alloc: Global, low: &Low) -> Result<Vec<Vec<bool>>, Memory> {
    let mut rows = Vec::new(alloc);
    for function in &low.functions {
        let row = row_of(alloc, low, &rows, function)?;
        rows.push(row)?;
    }
    Ok(rows)
}

/// The object of an access that is of all of it.
fn whole(address: Address) -> Option<u32> {
    match address.base {
        Base::Pointer { .. } => None,
        Base::Object(object) => {
            if address.offset.is_none() && address.displacement == 0 {
                Some(object)
            } else {
                None
            }
        }
    }
}

fn is_scalar(object: &Object) -> bool {
    match object.storage {
        Storage::Constant => false,
        Storage::Local => false,
        Storage::Global => object.length == 1,
    }
}

fn has_kind(objects: &[Object], object: u32, kind: Kind) -> bool {
    match objects.get(object as usize) {
        None => false,
        Some(it) => same_kind(it.kind, kind),
    }
}

impl Seen {
    fn new(alloc: Global, objects: usize) -> Result<Seen, Memory> {
        Ok(Seen {
            banned: vec![in alloc; false; objects]?,
            written: vec![in alloc; false; objects]?,
            uses: vec![in alloc; 0u64; objects]?,
            others: vec![in alloc; 0u64; objects]?,
        })
    }

    fn access(&mut self, low: &Low, kind: Kind, address: Address, worth: Worth) {
        match whole(address) {
            None => set_base(&mut self.banned, &low.claims, address.base),
            Some(object) => {
                if !has_kind(&low.objects, object, kind) {
                    set_flag(&mut self.banned, object);
                }
                if worth.certain {
                    count(&mut self.uses, object, worth.each);
                } else {
                    count(&mut self.others, object, worth.each);
                }
            }
        }
    }

    fn instr(&mut self, low: &Low, rows: &[Vec<bool>], instr: &Instr, worth: Worth) {
        match instr {
            Instr::Load { kind, address, .. } => self.access(low, *kind, *address, worth),
            Instr::Store { kind, address, .. } => {
                self.access(low, *kind, *address, worth);
                if let Base::Object(object) = address.base {
                    set_flag(&mut self.written, object);
                }
            }
            Instr::Call { function, .. } => set_called(&mut self.banned, rows, *function),
            _ => {}
        }
    }

    /// The scalar that loops access most which a run may pass by; it is looked at once.
    fn other(&mut self, objects: &[Object]) -> Option<(u32, u64)> {
        let mut best = LEAST;
        let mut found = None;
        let mut at = 0u32;
        for object in objects {
            if let Some(uses) = self.others.get(at as usize) {
                if *uses > best && is_scalar(object) && !flag_at(&self.banned, at) {
                    best = *uses;
                    found = Some((at, *uses));
                }
            }
            at = at.saturating_add(1);
        }
        if let Some((object, _)) = found {
            if let Some(own) = self.others.get_mut(object as usize) {
                *own = 0;
            }
        }
        found
    }

    /// The scalar at a place, if it may have a register and is used more than so much.
    fn better(&self, object: &Object, at: u32, best: u64) -> Option<u64> {
        if !is_scalar(object) || flag_at(&self.banned, at) {
            return None;
        }
        match self.uses.get(at as usize) {
            None => None,
            Some(uses) => { if *uses > best { Some(*uses) } else { None } }
        }
    }

    /// Takes the scalar that is used most, if one is used more than so much.
    fn take(&mut self, objects: &[Object]) -> Option<Resident> {
        let mut best = LEAST;
        let mut found = None;
        let mut at = 0u32;
        for object in objects {
            if let Some(uses) = self.better(object, at, best) {
                best = uses;
                found = Some(Resident {
                    object: at,
                    kind: object.kind,
                    written: flag_at(&self.written, at),
                });
            }
            at = at.saturating_add(1);
        }
        if let Some(resident) = found {
            set_flag(&mut self.banned, resident.object);
        }
        found
    }
}

/// By loop: whether each run comes to it; the function that is run is entered once.
fn certain_loops(
    alloc: Global,
    begun: &Beginning,
    function: &Function,
    is_main: bool,
) -> Result<Vec<bool>, Memory> {
    let mut certain = Vec::new(alloc);
    for each in &function.loops {
        certain.push(is_main || is_certain(alloc, begun, &function.blocks, each.header)?)?;
    }
    Ok(certain)
}

/// What an access in a block counts: eight times as much in each loop further inside, and nothing outside of all.
fn worth_at(function: &Function, certain: &[bool], block: u32) -> Worth {
    let mut depth = 0u32;
    let mut first = u32::MAX;
    let mut is_certain = false;
    for (number, each) in function.loops.iter().enumerate() {
        if each.header <= block && block <= each.latch {
            depth = depth.saturating_add(1);
            if each.header < first {
                first = each.header;
                is_certain = is_set(certain, number);
            }
        }
    }
    let each = if depth > 0 {
        1u64.wrapping_shl(depth.min(6).wrapping_mul(3))
    } else {
        0
    };
    Worth {
        each,
        certain: is_certain,
    }
}

fn accesses(instr: &Instr, object: u32) -> u64 {
    let found = match instr {
        Instr::Load { address, .. } => whole(*address),
        Instr::Store { address, .. } => whole(*address),
        _ => None,
    };
    match found {
        None => 0,
        Some(it) => { if it == object { 1 } else { 0 } }
    }
}

fn accesses_in(code: &[Instr], object: u32) -> u64 {
    let mut number = 0u64;
    for instr in code {
        number = number.saturating_add(accesses(instr, object));
    }
    number
}

/// How often a run of a function accesses a scalar at least.
fn fewest_accesses(
    alloc: Global,
    begun: &Beginning,
    blocks: &[Block],
    object: u32,
) -> Result<u64, Memory> {
    let mut done = Vec::new(alloc);
    for block in blocks {
        done.push(accesses_in(&block.code, object))?;
    }
    fewest(alloc, begun, blocks, &done)
}

/// Loops that a run may pass by count where each run accesses a scalar as often as its load and its store do.
fn count_others(
    alloc: Global,
    objects: &[Object],
    begun: &Beginning,
    function: &Function,
    seen: &mut Seen,
) -> Result<(), Memory> {
    for _ in 0..TRIED {
        if let Some((object, uses)) = seen.other(objects) {
            if fewest_accesses(alloc, begun, &function.blocks, object)? >= LEAST {
                count(&mut seen.uses, object, uses);
            }
        }
    }
    Ok(())
}

fn is_of_scalar(objects: &[Object], address: Address) -> bool {
    match whole(address) {
        None => false,
        Some(object) => match objects.get(object as usize) {
            None => false,
            Some(it) => is_scalar(it),
        },
    }
}

fn code_accesses_scalars(objects: &[Object], code: &[Instr]) -> bool {
    for instr in code {
        let is_one = match instr {
            Instr::Load { address, .. } => is_of_scalar(objects, *address),
            Instr::Store { address, .. } => is_of_scalar(objects, *address),
            _ => false,
        };
        if is_one {
            return true;
        }
    }
    false
}

/// Whether blocks access a scalar by its own name.
fn access_scalars(objects: &[Object], blocks: &[Block]) -> bool {
    for block in blocks {
        if code_accesses_scalars(objects, &block.code) {
            return true;
        }
    }
    false
}

/// The scalars of a function that its loops use most.
fn residents_in(
    alloc: Global,
    low: &Low,
    rows: &[Vec<bool>],
    function: &Function,
    is_main: bool,
) -> Result<Vec<Resident>, Memory> {
    let mut residents = Vec::new(alloc);
    if function.loops.is_empty() || !access_scalars(&low.objects, &function.blocks) {
        return Ok(residents);
    }
    let begun = beginning_of(alloc, function)?;
    let certain = certain_loops(alloc, &begun, function, is_main)?;
    let mut seen = Seen::new(alloc, low.objects.len())?;
    let mut number = 0u32;
    for block in &function.blocks {
        let worth = worth_at(function, &certain, number);
        for instr in &block.code {
            seen.instr(low, rows, instr, worth);
        }
        number = number.saturating_add(1);
    }
    count_others(alloc, &low.objects, &begun, function, &mut seen)?;
    for _ in 0..MOST {
        if let Some(resident) = seen.take(&low.objects) {
            residents.push(resident)?;
        }
    }
    Ok(residents)
}

/// By function: the scalars that get registers.
pub fn chosen(alloc: Global, low: &Low, rows: &[Vec<bool>]) -> Result<Vec<Vec<Resident>>, Memory> {
    let mut chosen = Vec::new(alloc);
    let mut number = 0u32;
    for function in &low.functions {
        chosen.push(residents_in(alloc, low, rows, function, number == low.main)?)?;
        number = number.saturating_add(1);
    }
    Ok(chosen)
}
