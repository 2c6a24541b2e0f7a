// Items at the edges of their reach, and their words.
ghost use Rattle.std.specs.Prelude.{◌<◌, ◌^◌};
ghost use Rattle.asm_forms.specs.Sound.{IsSound};

use crate::functions::function_of;
use asm_forms::{Regions, form};
use asm_items::{Form, Item};
use asm_rows::row;
use rv_core::{Condition, Instr};
use std::alloc::Global;
use std::test::Fail;
use wcc_base::Memory;

/// What leads to another place: `beq x5, x6`, or a jump.
#[derive(Clone, Copy)]
enum Lead {
    Branch,
    Jump,
}

/// An item, how many instructions stand between it and what it leads to, and its words.
#[derive(Clone, Copy)]
struct Case {
    lead: Lead,
    ahead: bool,
    between: u32,
    words: &'static [u32],
}

fn item(lead: Lead, block: u32) -> Item
    ensures { IsSound result }
{
    match lead {
        Lead::Branch => Item::Branch {
            form: Form::Far,
            condition: Condition::Equal,
            left: 5,
            right: 6,
            block,
        },
        Lead::Jump => Item::Jump { far: true, block },
    }
}

fn idle() -> Item
    ensures { IsSound result }
{
    Item::Single(Instr::addi(0, 0, 0))
}

/// The bytes of a function with these items, so many instructions between, that begins at address 0.
fn bytes_of(alloc: Global, first: Item, between: u32, last: Item) -> Result<Vec<u8>, Memory>
    requires first { IsSound first }
    requires last { IsSound last }
    requires between { between < 2 ^ 20 }
{
    let functions = function_of(alloc, first, between, last)?;
    let regions = Regions {
        placed: &[],
        flash: 0,
        scratchpad: 0x1000_0000,
    };
    let layout = form(alloc, regions, functions.as_slice())?;
    row(alloc, &layout, &[], false)
}

/// Whether these words stand there.
fn has_words(alloc: Global, bytes: &[u8], at: usize, words: &[u32]) -> Result<bool, Memory> {
    let mut wanted = Vec::new(alloc);
    for word in words {
        wanted.extend_from_slice(&word.to_le_bytes())?;
    }
    match bytes.get(at..) {
        Some(rest) => Ok(rest.starts_with(wanted.as_slice())),
        None => Ok(false),
    }
}

fn holds(alloc: Global, case: &Case) -> Result<bool, Memory> {
    let between = case.between;
    if between >= 0x10_0000 {
        return Ok(false);
    }
    if case.ahead {
        let bytes = bytes_of(alloc, item(case.lead, 2), between, idle())?;
        return has_words(alloc, bytes.as_slice(), 0, case.words);
    }
    let bytes = bytes_of(alloc, idle(), between, item(case.lead, 1))?;
    has_words(
        alloc,
        bytes.as_slice(),
        4 + 4 * between as usize,
        case.words,
    )
}

/// The first case whose words are others.
fn first_other(alloc: Global, cases: &[Case]) -> Result<Option<usize>, Memory> {
    for (index, case) in cases.iter().enumerate() {
        if !holds(alloc, case)? {
            return Ok(Some(index));
        }
    }
    Ok(None)
}

/// `beq`; `bne` over `jal`, twice; `bne` over `auipc` and `jalr`.
const BRANCHES_AHEAD: [Case; 4] = [
    Case {
        lead: Lead::Branch,
        ahead: true,
        between: 1022,
        words: &[0x7e62_8ee3],
    },
    Case {
        lead: Lead::Branch,
        ahead: true,
        between: 1023,
        words: &[0x0062_9463, 0x0000_106f],
    },
    Case {
        lead: Lead::Branch,
        ahead: true,
        between: 262_142,
        words: &[0x0062_9463, 0x7fdf_f06f],
    },
    Case {
        lead: Lead::Branch,
        ahead: true,
        between: 262_143,
        words: &[0x0062_9663, 0x0010_0297, 0x0042_8067],
    },
];

const BRANCHES_BACK: [Case; 2] = [
    Case {
        lead: Lead::Branch,
        ahead: false,
        between: 1024,
        words: &[0x8062_8063],
    },
    Case {
        lead: Lead::Branch,
        ahead: false,
        between: 1025,
        words: &[0x0062_9463, 0xff9f_e06f],
    },
];

/// `jal`, and `auipc` with `jalr`.
const JUMPS: [Case; 4] = [
    Case {
        lead: Lead::Jump,
        ahead: true,
        between: 262_142,
        words: &[0x7fdf_f06f],
    },
    Case {
        lead: Lead::Jump,
        ahead: true,
        between: 262_143,
        words: &[0x0010_0297, 0x0042_8067],
    },
    Case {
        lead: Lead::Jump,
        ahead: false,
        between: 262_144,
        words: &[0x8000_006f],
    },
    Case {
        lead: Lead::Jump,
        ahead: false,
        between: 262_145,
        words: &[0xfff0_0297, 0xffc2_8067],
    },
];

#[test]
fn branches_ahead(rt: HostRuntime) -> Result<(), Fail> {
    let other = first_other(rt.alloc(), &BRANCHES_AHEAD)?;
    assert_eq!(rt; other, None);
    Ok(())
}

#[test]
fn branches_back(rt: HostRuntime) -> Result<(), Fail> {
    let other = first_other(rt.alloc(), &BRANCHES_BACK)?;
    assert_eq!(rt; other, None);
    Ok(())
}

#[test]
fn jumps(rt: HostRuntime) -> Result<(), Fail> {
    let other = first_other(rt.alloc(), &JUMPS)?;
    assert_eq!(rt; other, None);
    Ok(())
}
