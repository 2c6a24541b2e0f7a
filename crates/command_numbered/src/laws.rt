// How long the sources of numbers are.
ghost use Rattle.std.specs.Prelude.{◌≤◌, ℕ, length};
ghost use Rattle.command_numbered.specs.Text.{numbered_text};

/// The sources of small numbers are short.
pub fn sources_are_short()
    ensures { (n : ℕ) → n ≤ 100 → length (numbered_text n) ≤ 20000 }
{}
