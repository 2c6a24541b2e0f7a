//! How a machine that runs laid code follows a run over places.
//!
//! `specs/` is to be read in this order: where frames and arrays lie, and what functions save (`Plans`); the items
//! of a program with what each of them touches (`Noted`); where the blocks of a program stand in the code of an
//! image (`Layouts`); a run of the machine at a place of that code, with the blocks that began as the visited
//! addresses tell them, and what was touched there (`Positions`); what a machine shows of values and arrays
//! (`Views`); what a call leaves for those that wait (`Waiting`); and the relation between a run over places and a
//! run of the machine (`Following`), which says nothing of a run that isn't good.
//!
//! The crate has definitions alone.
#![tactic(auto)]
