// What is kept of a compilation.
ghost use Rattle.std.specs.Prelude.{◌≡◌};

use compile_stages::Made;
use layout_program::Laid;
use promise_compiler::Built as Written;
use rv_core::Image;
use wcc_report::Report;

/// What a source is laid out as, with all that it was on the way, and the report on it.
#[derive(Drop)]
pub struct Built {
    pub made: Made,
    pub report: Report,
}

/// The image of what was made, all else let go.
fn image_of(made: Made) -> Image
    ensures { result ≡ made.laid.image }
{
    let Made {
        stages,
        code,
        placement,
        laid,
    } = made;
    drop(stages);
    drop(code);
    drop(placement);
    let Laid {
        image,
        claimed,
        lists,
    } = laid;
    drop(claimed);
    drop(lists);
    image
}

/// What is written of it, all else let go.
pub fn written(built: Built) -> Written
    ensures image { result.image ≡ built.made.laid.image }
    ensures report { result.report ≡ built.report }
{
    let Built { made, report } = built;
    Written {
        image: image_of(made),
        report,
    }
}
