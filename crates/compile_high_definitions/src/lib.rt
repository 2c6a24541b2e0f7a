//! What the high form of a source keeps of it, through all passes, as definitions alone.
//!
//! `specs/Carried` says when a program is the plan of a source (`IsPlanned`), what a pass made of it (`IsPassed`), and what each
//! chain of passes keeps of the source (`IsCarried`): its runs, counts and bounds, and that it can be lowered and has room. All
//! that is shown of a program in memory rests on the latter alone, so no proof above knows which passes there are.
//! `specs/Limits` says how large such a program is (`IsLimited`).
//!
//! That plans are so, and that passes keep it, is shown in `compile_high_law`, and that such a program has room in `compile_capacity`;
//! what only names it stands here, and not on these proofs.
#![tactic(auto)]
