//! Says which bounds are derived for the loops of each source of its input, and what the source comes to under them: a program
//! for tests.
//!
//! A line of the input is a source. The answer has each derived bound, as the loop's number, its least and its most turns; and
//! behind a colon the value of the source on the empty input, or the first loop without a bound, or why there is neither.
//!
//! `stdin` has the sources, and `stdout` what was worked out by hand for each.
#![tactic(auto)]

mod answers;

use std::io;

fn main(rt: HostRuntime) -> io::Result<()> {
    for line in rt.lines(rt.alloc()) {
        match answers::answer_to(rt.alloc(), line?.as_bytes()) {
            Ok(answer) => println!(rt; "{answer}")?,
            Err(_) => println!(rt; "no memory")?,
        }
    }
    Ok(())
}
