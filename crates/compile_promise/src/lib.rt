//! Why the written image and report keep the promise: runs as those of the source, its facts, and texts that are short.
//!
//! Proved, by calls with empty bodies: [`images_show`] and [`sources_show`]. Where a program in the high form carries on another one, or a
//! source, and an image keeps its low program, each run that is kept of what it carries on is one of the machine on the same input of
//! bytes: it exits with the same value and output, passes the copies of each mark together as often as was counted and no never mark,
//! keeps the claims of the certificate's flow system, and takes no more cycles than the accepted certificate says. These claims are
//! any that a run keeps which keeps those on the image and shows what was shown. So the forward simulations from the source to the
//! machine are one: where main ends, the machine ends as it does.
//!
//! And [`reported_run_as_sources`]: on every input of bytes on which the source's run is defined and keeps its annotations, the
//! machine that runs what is made of the source ends with its value and its output, within the cycles of what is reported, and keeps
//! the claims of the report, restrictions among them; and it visits the addresses of each line of copies as often as the source counts
//! that function or marker. So it keeps a claim on a restriction because the source's counts keep the restriction.
//!
//! Of the report on the image of a source: [`reported_tell_facts`], that its names, bounds of loops, restrictions, addresses that are never
//! visited and shares are those of the source; [`reported_are_lined`], that each load and store lies in a line of regions; and of the image
//! [`made_take_what_is_placed`]. `proofs/Naming` shows that no two functions have one name, `proofs/Loops` of which loop of the source each
//! claim is, `proofs/Nevers` that claims on never marks stand behind more starts than their loops make, `proofs/Shares` where shares begin;
//! `proofs/Loading` and `proofs/Lined` find the accesses of laid code among the moves of a flow system.
//!
//! Of both as texts: [`texts_are_short`]. The image of a source of at most 1,048,576 bytes has fewer than
//! 8,388,608 bytes as a file, and the report on it fewer than 500,000,000, so that `check` reads both. A report has no more
//! exits, lines of regions and potentials than the image has instructions, and twice as many parts of a flow at most; no more
//! loops than the program has operations, nor addresses of copies together with those that are never visited; at most 32
//! restrictions, each side of which has no more terms than there are addresses of copies, with numbers of eight digits; and at
//! most 200 columns. Its names are no longer than the source, in the copy lines of functions, in those of markers, and in the
//! shares.
//!
//! The crate knows no search, and not how an image is made or a text written.
#![tactic(auto)]

mod laws;

pub use laws::{
    images_show, made_take_what_is_placed, reported_are_lined, reported_run_as_sources,
    reported_tell_facts, sources_show, texts_are_short,
};
