// A law on the forms of items.
ghost use Rattle.asm_writing.specs.Forms.{FormsKeep};

/// What a block promises doesn't depend on the forms of its items.
pub fn forms_keep()
    ensures { FormsKeep }
{}
