// What an instruction costs, and how long it waits.
ghost use Rattle.std.specs.Prelude.{◌≡◌, ◌≢◌, ◌<◌, true, is_some};
ghost use Rattle.rv_core.specs.declared.row.Class.{Class};
ghost use Rattle.rv_core.specs.declared.regions.Region.{Region};
ghost use Rattle.rv_core.specs.Rows.{row_of};
ghost use Rattle.rv_core.specs.Table.{table_of, fetch_cost, class_cost, access_cost, accesses, cost_of, uses, wait_of};

use crate::row::{Class, Format};
use crate::{Costs, Instr, Region};

/// What a fetch from the region costs.
fn fetch_cost(costs: &Costs, fetch: Region) -> u32
    ensures value { result ≡ fetch_cost (table_of costs.now) fetch }
    ensures small { result < 1001 }
{
    match fetch {
        Region::Flash => costs.fetch_flash,
        Region::Spm => costs.fetch_spm,
        Region::Ram => 0,
    }
}

/// What an instruction of the class costs beside its fetch and its access.
fn class_cost(costs: &Costs, class: Class, taken: bool) -> u32
    ensures value { result ≡ class_cost (table_of costs.now) class taken }
    ensures small { result < 1001 }
{
    match class {
        Class::Plain => costs.alu,
        Class::Multiply => costs.mul,
        Class::Divide => costs.div,
        Class::Load => costs.load,
        Class::Store => costs.store,
        Class::Branch if taken => costs.branch_taken,
        Class::Branch => costs.branch,
        Class::Jump => costs.jump,
        Class::System => costs.ecall,
    }
}

/// What an access to the region costs.
fn access_cost(costs: &Costs, access: Option<Region>) -> u32
    ensures value { result ≡ access_cost (table_of costs.now) access }
    ensures small { result < 1001 }
{
    match access {
        None => 0,
        Some(Region::Flash) => costs.data_flash,
        Some(Region::Spm) => costs.data_spm,
        Some(Region::Ram) => costs.data_ram,
    }
}

/// The cycles of an instruction that was fetched from a region: its fetch, its class and its
/// access.
pub fn cost(costs: &Costs, instr: &Instr, fetch: Region, access: Option<Region>, taken: bool) -> u32
    requires fetch { fetch ≢ Region.Ram }
    requires access { is_some access ≡ accesses (row_of instr.now.op).class }
    requires taken { taken ≡ true → (row_of instr.now.op).class ≡ Class.Branch }
    ensures { result ≡ cost_of (table_of costs.now) instr.now fetch access taken }
{
    let class = class_cost(costs, instr.op().row().class, taken);
    fetch_cost(costs, fetch) + class + access_cost(costs, access)
}

/// Whether an instruction reads a register.
fn uses(instr: &Instr, register: u8) -> bool
    ensures { result ≡ uses instr.now register }
{
    match instr.op().row().format {
        Format::R | Format::S | Format::B => instr.rs1() == register || instr.rs2() == register,
        Format::I | Format::Shift => instr.rs1() == register,
        Format::U | Format::J => false,
        Format::Fixed => register == 10 || register == 17,
    }
}

/// The cycles that an instruction waits for the one before it: the stall where that one loads a
/// register, other than x0, that this one reads.
pub fn wait(costs: &Costs, before: &Instr, instr: &Instr) -> u32
    ensures value { result ≡ wait_of (table_of costs.now) before.now instr.now }
    ensures small { result < 1001 }
{
    match before.op().row().class {
        Class::Load if before.rd() != 0 && uses(instr, before.rd()) => costs.stall,
        _ => 0,
    }
}
