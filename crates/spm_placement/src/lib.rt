//! What is worth placing in the scratchpad: what items gain there, and the best set of them that fits.
//!
//! `item` is what is chosen from. `gaining` finds what each function and array saves by a listed flow (`specs/Gains.antt`).
//! `fitting` keeps the items that gain something and fit by themselves; where they fit together, all are taken. Else
//! `choosing` cuts them into 32 parts. `rows` has, for each capacity in words, the most that a part and the items behind it
//! are worth (`specs/Tops.antt`; Bellman 1957), and how many of the words those behind it get (Hirschberg 1975). So the
//! rows of the parts share the capacity out, and each part is chosen from in the same way, down to parts that fit. `placing`
//! turns the numbers of chosen items into a placement.
//!
//! Proved: [`gains`] gives each item its number, its size and what it gains; [`choose`] answers the numbers of some of the
//! items which fit the capacity, and no others that fit gain more (`specs/Sets.antt`), each of which gains something;
//! [`placement`] has exactly those in the scratchpad; and where no two items have one number, those with such numbers take
//! what the chosen ones do ([`numbers_take`]). [`gains`] asks for a flow that is at each item less than 2^100 times, as
//! those of a search are.
//!
//! A choice takes at most 32/31 times as many steps as there are items, times the capacity in words: 2^28 and a little more
//! for 16,384 items and the whole scratchpad. It keeps some hundred rows of 32 bytes for each word at most. The gains take
//! a search of the flow for each address of an item.
//!
//! The crate knows no program, no layout, and not how a flow is found.
#![tactic(auto)]

mod choosing;
mod fitting;
mod gaining;
mod item;
mod laws;
mod placing;
mod rows;

pub use choosing::choose;
pub use gaining::gains;
pub use item::Item;
pub use laws::numbers_take;
pub use placing::placement;
