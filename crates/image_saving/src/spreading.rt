// Which registers are needed of whom.
ghost use Rattle.std.specs.Prelude.{◌≡◌, ◌<◌, ◌≤◌, false, true, IfOk, length, slice_index_or, slice_set};
ghost use Rattle.low_ir.specs.Places.{machine_registers};
ghost use Rattle.image_frames.specs.Registers.{holds};
ghost use Rattle.image_frames.specs.Needs.{outline_at, asks, spread_sites, spread, needing};

use super::sites::Site;
use super::walks::Outline;
use std::alloc::Global;
use wcc_base::Memory;

/// Whether a function gets an argument in a register.
#[tactic(auto, using(crate::proofs::KeptLemmas::passed_past))]
fn is_passed(outlines: &[Outline], function: usize, register: usize) -> bool
    requires { register < machine_registers }
    ensures { result ≡ holds (outline_at outlines.now function).passed register }
{
    if function < outlines.len() {
        let outline = &outlines[function];
        outline.passed[register]
    } else {
        false
    }
}

/// Whether a call asks of the callee that a register comes back.
fn asks(outlines: &[Outline], register: usize, needed: bool, saved: bool, site: &Site) -> bool
    requires { register < machine_registers }
    ensures { result ≡ asks outlines.now register needed saved site.now }
{
    if site.keeps(register as u32) && !is_passed(outlines, site.callee(), register) {
        return true;
    }
    needed && !saved
}

#[tactic(auto, using(crate::proofs::KeptLemmas::set_past))]
fn need(needs: &mut [bool], function: usize)
    ensures { needs.new ≡ slice_set needs.old function true }
{
    if function < needs.len() {
        needs[function] = true;
    }
}

fn spread_sites(
    needs: &mut [bool],
    outlines: &[Outline],
    register: usize,
    needed: bool,
    saved: bool,
    sites: &[Site],
)
    requires { register < machine_registers }
    ensures { needs.new ≡ spread_sites outlines.now register needed saved sites.now needs.old }
{
    for site in sites {
        if asks(outlines, register, needed, saved, site) {
            need(needs, site.callee());
        }
    }
}

fn is_needed(needs: &[bool], function: usize) -> bool
    ensures { result ≡ slice_index_or needs.now function false }
{
    match needs.get(function) {
        Some(needed) => *needed,
        None => false,
    }
}

/// Spreads the needs of a function to those that it calls.
fn spread_from(needs: &mut [bool], outlines: &[Outline], register: usize, function: usize)
    requires register { register < machine_registers }
    requires function { function < length outlines.now }
    ensures { needs.new ≡ spread_sites outlines.now register (slice_index_or needs.old function false) (holds (outline_at outlines.now function).written register) (outline_at outlines.now function).sites needs.old }
{
    let needed = is_needed(needs, function);
    let outline = &outlines[function];
    let written = outline.written[register];
    spread_sites(
        needs,
        outlines,
        register,
        needed,
        written,
        outline.sites.as_slice(),
    );
}

/// Spreads the needs of the first functions to those that they call, from the last of them on.
fn spread(needs: &mut [bool], outlines: &[Outline], register: usize, functions: usize)
    requires register { register < machine_registers }
    requires functions { functions ≤ length outlines.now }
    ensures { needs.new ≡ spread outlines.now register functions needs.old }
{
    let mut left = functions;
    while left > 0 {
        left -= 1;
        spread_from(needs, outlines, register, left);
    }
}

/// By function, whether those that wait for it need what a register holds: from callers to callees, which
/// have lower numbers.
pub fn needing(alloc: Global, outlines: &[Outline], register: usize) -> Result<Vec<bool>, Memory>
    requires { register < machine_registers }
    ensures { IfOk result (λ needs. needs.items ≡ needing outlines.now register) }
{
    let mut needs = vec![in alloc; false; outlines.len()]?;
    spread(&mut needs, outlines, register, outlines.len());
    Ok(needs)
}
