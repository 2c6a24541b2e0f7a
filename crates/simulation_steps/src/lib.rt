//! How a machine performs the code of instructions over places, enters functions of laid code, and leaves them.
//!
//! The crate has lemmas alone (`proofs/`). Those of single pieces have the form: from a run of the machine that is to run the code of a
//! piece, a later one has run it, and shows what follows. To be read in this order: what all of them are given
//! (`Given`); words in immediates (`Words`); what operators make of words (`Values`); reads and writes of memory
//! that an image opens (`Opened`); the regions that an item may touch (`Touching`); one instruction of laid code
//! (`Stepping`); constants, moves, loads and stores (`Moving`); the registers of values and the words of frames
//! (`Places`); code without arrays (`Noting`); operands and results (`Operands`); what is set, operators, and bytes
//! that come and go (`Plain`); addresses and elements of arrays (`Accesses`).
//!
//! By them a machine follows a run over places, instruction by instruction: what a written place leaves as it was (`Apart`), that the
//! relation holds behind an instruction that gives a place a value (`Holding`), and the instructions (`Plains`). Each says of a
//! machine that is where a run over places is: later it is where the run's next step is. A step that leads to no
//! good run asks nothing.
//!
//! Of calls: registers that a call keeps and passes arguments in go to their homes
//! and come back (`Homes`), and are those of parameters (`Members`); a function saves its return address and the registers that
//! others need, and loads them before it returns (`Saved`); one argument goes into its register, which then holds no value of the
//! caller any more, or to a word of memory (`Arguments`). Of where a call goes: one step at an address of code (`Standing`); jumps, near
//! and far (`Jumps`); branches in each of their forms (`Branches`); calls and returns (`Calls`); and the first instruction of a block
//! (`Arrivals`). Of both (`Entries`): behind a function's entry its frame has the return address, unless the function calls no other,
//! and the registers that others need; a function leaves to where it was called from, with those registers as they were saved.
#![tactic(auto)]
