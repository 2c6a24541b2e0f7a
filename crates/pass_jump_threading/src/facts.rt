// What is known of registers in a block.
ghost use Rattle.std.specs.Prelude.{◌≡◌, ◌⊎◌, ℕ, [], true, Some, None, All, IfOk, map, slice_index_or};
ghost use Rattle.low_ir.specs.View.{instr_of, operand_of};
ghost use Rattle.pass_jump_threading_law.specs.Known.{Becomes, Knows, word_of, word_written};
ghost use Rattle.pass_jump_threading.specs.Facts.{Covers, IsTold, Learns, Says, known_in, lookup, rewritten_one};

use low_ir::{Instr, Operand};
use low_parts::accesses::written;
use std::alloc::Global;
use wcc_base::Memory;

/// A word that a register has, or that it has none that is known.
#[derive(Clone, Copy)]
pub struct Fact {
    pub register: u32,
    pub word: Option<u32>,
}

/// How many facts a block has at most.
const MOST: usize = 16;

fn find(facts: &[Fact], register: u32) -> Option<u32>
    ensures { result ≡ lookup facts.now register }
{
    for fact in facts {
        if fact.register == register {
            return fact.word;
        }
    }
    None
}

fn held_at(held: &[Option<u32>], register: u32) -> Option<u32>
    ensures { result ≡ slice_index_or held.now register None }
{
    match held.get(register as usize) {
        None => None,
        Some(word) => *word,
    }
}

/// The word of a register.
pub fn known(held: &[Option<u32>], facts: &[Fact], register: u32) -> Option<u32>
    ensures { result ≡ known_in held.now facts.now register }
{
    match held_at(held, register) {
        None => find(facts, register),
        Some(word) => Some(word),
    }
}

/// The word of an operand.
pub fn word_of(held: &[Option<u32>], facts: &[Fact], operand: Operand) -> Option<u32>
    ensures { result ≡ word_of (known_in held.now facts.now) (operand_of operand) }
{
    match operand {
        Operand::Register(register) => known(held, facts, register),
        Operand::Constant(word) => Some(word),
    }
}

/// The word that an instruction writes.
fn word_written(held: &[Option<u32>], facts: &[Fact], instr: &Instr) -> Option<u32>
    ensures { result ≡ word_written (known_in held.now facts.now) (instr_of instr.now) }
{
    match instr {
        Instr::Set { value, .. } => word_of(held, facts, *value),
        _ => None,
    }
}

fn rewritten_one(register: u32, word: Option<u32>, fact: Fact) -> Fact
    ensures { result ≡ rewritten_one register word fact }
{
    if fact.register == register {
        Fact {
            register: fact.register,
            word,
        }
    } else {
        fact
    }
}

/// The same facts, but for a register another word.
fn rewritten(
    alloc: Global,
    facts: &[Fact],
    register: u32,
    word: Option<u32>,
) -> Result<Vec<Fact>, Memory>
    ensures { IfOk result (λ made. made.items ≡ map (rewritten_one register word) facts.now) }
{
    let mut made = Vec::new(alloc);
    for fact in facts {
        made.push(rewritten_one(register, word, *fact))?;
    }
    Ok(made)
}

fn is_named(facts: &[Fact], register: u32) -> bool {
    for fact in facts {
        if fact.register == register {
            return true;
        }
    }
    false
}

/// The same facts, with one more behind them if there is room.
fn with_fact(
    facts: Vec<Fact>,
    is_new: bool,
    register: u32,
    word: Option<u32>,
) -> Result<Vec<Fact>, Memory>
    ensures { IfOk result (λ made. (r w : ℕ) → lookup made.items r ≡ Some w → (lookup facts.items r ≡ Some w) ⊎ ((r ≡ register) × (word ≡ Some w))) }
{
    let adds = is_new && word.is_some() && facts.len() < MOST;
    if !adds {
        return Ok(facts);
    }
    let mut facts = facts;
    facts.push(Fact { register, word })?;
    Ok(facts)
}

/// A register was written, with this word if it is known.
fn learned(
    alloc: Global,
    facts: &[Fact],
    register: u32,
    word: Option<u32>,
) -> Result<Vec<Fact>, Memory>
    ensures { IfOk result (λ made. Learns register word facts.now made.items) }
{
    let is_new = !is_named(facts, register);
    let same = rewritten(alloc, facts, register, word)?;
    with_fact(same, is_new, register, word)
}

/// An instruction was executed; or it writes a register that is to be left alone.
fn pass(
    alloc: Global,
    held: &[Option<u32>],
    facts: &mut Vec<Fact>,
    instr: &Instr,
) -> Result<bool, Memory>
    ensures { IfOk result (λ b. b ≡ true → Becomes (known_in held.now facts.old.items) (instr_of instr.now) (known_in held.now facts.new.items)) }
{
    match written(instr) {
        None => Ok(true),
        Some(register) => {
            if held_at(held, register).is_some() {
                return Ok(false);
            }
            let word = word_written(held, facts, instr);
            let made = learned(alloc, facts, register, word)?;
            *facts = made;
            Ok(true)
        }
    }
}

/// The code of a block was executed.
pub fn pass_all(
    alloc: Global,
    held: &[Option<u32>],
    facts: &mut Vec<Fact>,
    code: &[Instr],
) -> Result<bool, Memory>
    ensures { IfOk result (λ b. b ≡ true → Knows (known_in held.now facts.old.items) (map instr_of code.now) (known_in held.now facts.new.items)) }
{
    for instr in code {
        if !pass(alloc, held, facts, instr)? {
            return Ok(false);
        }
    }
    Ok(true)
}

fn is_held(held: &[Option<u32>], facts: &[Fact], register: u32) -> bool
    ensures { result ≡ true → (w : ℕ) → slice_index_or held.now register None ≡ Some w → lookup facts.now register ≡ Some w }
{
    match held_at(held, register) {
        None => true,
        Some(word) => match find(facts, register) {
            None => false,
            Some(found) => found == word,
        },
    }
}

/// Whether all that is held is known.
pub fn are_held(held: &[Option<u32>], facts: &[Fact]) -> bool
    ensures { result ≡ true → Covers held.now (known_in [] facts.now) }
{
    let Ok(registers) = u32::try_from(held.len()) else {
        return false;
    };
    for register in 0..registers {
        if !is_held(held, facts, register) {
            return false;
        }
    }
    true
}

fn is_told(told: Option<Fact>, register: u32, word: u32) -> bool
    ensures { result ≡ true → IsTold told register word }
{
    match told {
        None => false,
        Some(fact) => match fact.word {
            None => false,
            Some(it) => fact.register == register && it == word,
        },
    }
}

fn says(held: &[Option<u32>], facts: &[Fact], told: Option<Fact>, fact: Fact) -> bool
    ensures { result ≡ true → Says (known_in held.now facts.now) told fact }
{
    match fact.word {
        None => true,
        Some(word) => match known(held, facts, fact.register) {
            None => is_told(told, fact.register, word),
            Some(it) => it == word || is_told(told, fact.register, word),
        },
    }
}

/// Whether these facts are known, or told besides.
pub fn say_all(held: &[Option<u32>], facts: &[Fact], told: Option<Fact>, wanted: &[Fact]) -> bool
    ensures { result ≡ true → All (Says (known_in held.now facts.now) told) wanted.now }
{
    for fact in wanted {
        if !says(held, facts, told, *fact) {
            return false;
        }
    }
    true
}

/// The same facts.
pub fn copied(alloc: Global, facts: &[Fact]) -> Result<Vec<Fact>, Memory>
    ensures { IfOk result (λ same. same.items ≡ facts.now) }
{
    let mut same = Vec::new(alloc);
    for fact in facts {
        same.push(*fact)?;
    }
    Ok(same)
}
