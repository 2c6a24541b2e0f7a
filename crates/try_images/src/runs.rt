// Runs of images, by the marks at the addresses that are listed for them.
ghost use Rattle.std.specs.Prelude.{IfOk};
ghost use Rattle.try_images.specs.Verdicts.{IsExit, IsSeen};

use layout_program::Laid;
use rv_runs::{ImageRun, run};
use std::alloc::Global;
use std::collections::BTreeMap;
use try_sources::Ended;
use wcc_base::{Items, Memory};

/// With a mark at each of its addresses.
fn note_mark(marks: &mut BTreeMap<u32, u32>, mark: u32, addresses: &[u32]) -> Result<(), Memory> {
    for at in addresses {
        marks.insert(*at, mark)?;
    }
    Ok(())
}

fn marks_of(alloc: Global, places: &[Items<u32>]) -> Result<BTreeMap<u32, u32>, Memory> {
    let mut marks = BTreeMap::new(alloc);
    for (number, addresses) in places.iter().enumerate() {
        let Ok(mark) = u32::try_from(number) else {
            return Err(Memory);
        };
        note_mark(&mut marks, mark, addresses.as_slice())?;
    }
    Ok(marks)
}

fn shown(run: Option<ImageRun>) -> Option<Ended>
    ensures { IsSeen run result }
{
    match run {
        None => None,
        Some(run) => Some(Ended {
            value: run.value,
            output: run.output,
            trace: run.trace,
        }),
    }
}

/// The run of an image on an input, where it exits.
pub fn over_image(alloc: Global, laid: &Laid, input: &[u8]) -> Result<Option<Ended>, Memory>
    ensures { IfOk result (λ r. IsExit laid.now.image input.now r) }
{
    let marks = marks_of(alloc, &laid.lists.places)?;
    let found = run(alloc, &laid.image, &marks, input)?;
    Ok(shown(found))
}
