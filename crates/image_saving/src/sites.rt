// Calls, and the registers that they keep.
ghost use Rattle.std.specs.Prelude.{◌≡◌};
ghost use Rattle.low_ir.specs.Effects.{is_member};
ghost use Rattle.image_saving.specs.Tables.{kept_list};

use std::marker::Model;

/// A call: who is called, and the registers that the call keeps.
#[derive(Drop)]
pub struct Site {
    callee: u32,
    /// Register q by the bit of value 2^q.
    kept: u32,
}

impl Model for Site {
    ghost use Rattle.image_frames.specs.Needs.{Site};
    ghost use Rattle.image_saving.specs.Tables.{kept_list};

    ghost Value = { Site };

    ghost view = { λ s. record { callee = s.callee; kept = kept_list s.kept } };
}

impl Site {
    pub fn new(callee: u32, kept: u32) -> Site
        ensures { result ≡ record { callee = callee; kept = kept_list kept } }
    {
        Site { callee, kept }
    }

    pub fn callee(&self) -> usize
        ensures { result ≡ self.now.callee }
    {
        self.callee as usize
    }

    /// Whether the call keeps a register.
    pub fn keeps(&self, register: u32) -> bool
        ensures { result ≡ is_member self.now.kept register }
    {
        if register < 24 {
            (self.kept >> register) % 2 == 1
        } else {
            false
        }
    }
}
