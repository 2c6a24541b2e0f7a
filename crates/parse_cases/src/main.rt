//! Says what the lexer and the parser make of each source of its input: a program for tests.
//!
//! A line of the input is a command and a source. In the source `$HH` stands for the byte with these two digits, and each
//! second part between bars for a text that is repeated: `int x=|250 (|1|250 )|;`. The answer is a line, too:
//!
//! - `tokens`: the kind of each token, its first byte and that behind it; `count`: how many there are.
//! - `tree` and `places`: the tree, as `parse_text` writes it, without places and with them.
//! - `names`: the names of the unit, in their order.
//! - `size`: how many tokens and nodes there are, and how deep the tree is.
//! - Where there are none, the lexer's or the parser's fault.
//!
//! `stdin` has the sources, and `stdout` what was worked out by hand for each from the grammar (C11 6.4 to 6.9).
#![tactic(auto)]

mod answers;
mod sources;

use std::io;

fn main(rt: HostRuntime) -> io::Result<()> {
    for line in rt.lines(rt.alloc()) {
        let answer = answers::answer_to(rt.alloc(), line?.as_str())?;
        println!(rt; "{answer}")?;
    }
    Ok(())
}
