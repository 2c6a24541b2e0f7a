// Which moves a system has.
ghost use Rattle.std.specs.Prelude.{◌≡◌};
ghost use Rattle.code_flow_system.specs.Systems.{AreAscending, has_moves};
ghost use Rattle.code_flow_system.specs.MoveCosts.{instruction_among};
ghost use Rattle.code_flow_system.specs.Certificates.{has_move};

use crate::runs::moves_at;
use code_flow_system::Move;
use rv_core::Instr;

/// Whether an address has moves.
pub fn has_moves(moves: &[Move], at: u32) -> bool
    requires { AreAscending moves.now }
    ensures { result ≡ has_moves moves.now at }
{
    !moves_at(moves, at).is_empty()
}

/// Whether there is a move of that address and number.
pub fn has_move(moves: &[Move], at: u32, number: u8) -> bool
    requires { AreAscending moves.now }
    ensures { result ≡ has_move moves.now at number }
{
    let steps = moves_at(moves, at);
    for i in 0..steps.len() {
        if steps[i].number == number {
            return true;
        }
    }
    false
}

/// The instruction at an address, where it has moves.
pub fn instruction_at(moves: &[Move], at: u32) -> Option<Instr>
    requires { AreAscending moves.now }
    ensures { result ≡ instruction_among moves.now at }
{
    let steps = moves_at(moves, at);
    if steps.is_empty() {
        return None;
    }
    Some(steps[0].instr)
}
