//! What derived bounds are worth: laws of the meaning of sources.
//!
//! `specs/Wider` says when facts have the bounds that are derived, and when other facts have wider ones. Proved of each typed
//! program, for every input: [`loops_find`], that each loop finds by its number the bounds that are derived for it;
//! [`facts_have`], that the facts that are read with these bounds have them; [`derived_hold`], that under such facts the meaning
//! is never broken at a loop for which they are derived; and [`wider_is_same`], that wider bounds at such loops, and at no
//! others, leave the meaning as it is.
//!
//! The proof goes through two runs at once, under narrow and under wide bounds: both do the same. As far as no loop counts, both come
//! to the same end, and the first is broken at no loop but one that is to blame (`proofs/Alike`); so it is of reads and writes
//! (`Steps`), expressions (`Expressions`), blocks that are entered (`Entering`), declarations (`Declaring`), loops that are to blame
//! (`Looping`) and the initial values of file level (`Quiet`), where array parameters go on naming arrays, and objects that a part of
//! a source changes by no name stay as they are (`proofs/Objects`, `Settings`).
//!
//! What a loop counts with is changed by nothing but the head of that loop. Of where objects live the proof uses what the plan of a
//! program says of them. Before it stand that the object which a loop counts with lives in the frame of its function
//! (`proofs/Homes`), that the head of the loop sets it, compares it and steps it (`Counted`), how often its test then holds
//! (`Arithmetic`), and that it turns so often, whatever wider bounds it has (`Turning`).
#![tactic(auto)]

mod laws;

pub use laws::{derived_hold, facts_have, loops_find, wider_is_same};
