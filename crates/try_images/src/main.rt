//! Tries the images that programs become: a tool for tests and for measuring, and no part of WCC.
//!
//! `try_images run SOURCE INPUT [MEANT]` makes the program of SOURCE in the low form, gives its registers places, lays it out and
//! runs the image on INPUT: with each register in a slot of its own, and in machine registers as `compile` chooses them,
//! and with nothing in the scratchpad and with everything that has room there. It prints how each run compares with what the
//! source MEANT means on INPUT, which is SOURCE where no other is given. `try_images image SOURCE slots|registers
//! nothing|everything IMAGE` writes one of the images, and `try_images lay SOURCE slots|registers TIMES` lays one so many times.
//! `try_images bound SOURCE slots|registers` folds the program, lays it with nothing in the scratchpad, and prints the greatest
//! value of a flow that keeps its loop bounds.
//!
//! Proved: `equal` is answered only where the image exits on the input, with the default costs, with the value and the output
//! that the source means there (`specs/Verdicts`), and the marks that were noted are counted as the source counts. That these are
//! the marks which the image passes is not proved.
//! `bound` prints what the search answers; nothing more is proved of it here.
#![tactic(auto)]

mod bounds;
mod images;
mod placing;
mod runs;
mod trying;

use std::process::ExitCode;
use try_sources::{Fault, end, words};
use trying::{USAGE, lay_times, print_bound, try_source, write_image};

fn perform(rt: &HostRuntime, words: &[String]) -> Result<(), Fault> {
    if words.len() < 3 || words.len() > 5 {
        return Err(Fault::Usage(USAGE));
    }
    let command = words[0].as_str();
    if command == "run" && words.len() < 5 {
        let source = words[1].as_str();
        let meant = words.get(3).map_or(source, String::as_str);
        return try_source(rt, source, words[2].as_str(), meant);
    }
    if command == "image" && words.len() == 5 {
        return write_image(
            rt,
            words[1].as_str(),
            words[2].as_str(),
            words[3].as_str(),
            words[4].as_str(),
        );
    }
    if command == "lay" && words.len() == 4 {
        return lay_times(rt, words[1].as_str(), words[2].as_str(), words[3].as_str());
    }
    if command == "bound" && words.len() == 3 {
        return print_bound(rt, words[1].as_str(), words[2].as_str());
    }
    Err(Fault::Usage(USAGE))
}

fn run(rt: &HostRuntime) -> Result<(), Fault> {
    let given = words(rt)?;
    perform(rt, &given)
}

fn main(rt: HostRuntime) -> ExitCode {
    end(&rt, run(&rt))
}
