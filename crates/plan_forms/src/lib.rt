//! The plan of a program keeps to the form of programs; how deep it is, and how large.
//!
//! `specs/Everywhere` goes through typed trees once for all who ask for something at some of their nodes: a condition is a function of a node and of what
//! holds of its parts, so that it is told where it is more than that. Of the plan of an expression, a statement or a function `specs/` says, and `proofs/`
//! prove:
//!
//! - how deep it is at most (`Levels`): two levels for each node of an expression, four for each statement;
//! - what it keeps to among so many blocks, where the typed tree does (`Forms`): its leaves have their blocks, its calls go where they may, its marks have
//!   their numbers, and expressions make no loops;
//! - how its loops are numbered (`Numbers`): from 0 on, in the order in which they stand, where the fillings in the head of a `for` stand before its loop;
//! - what it costs (`Costs`), by rates that make the cost its nodes, its operations or its weight: at most so much for each time that a node of the source
//!   is executed, or, without regard to loops, for each node.
//!
//! This crate knows no meaning, neither of the source nor of the high form.
#![tactic(auto)]
