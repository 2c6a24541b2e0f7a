//! Tokens and syntax trees of wide C, the language that `narrow` translates into the profile, as definitions (C11 6.4 to 6.9).
//!
//! Wide C has all of the profile, whose tokens, operators and pragmas it shares. `specs/Words` says how its further keywords are written,
//! `Said` what a token says, and `Tree`, `Spelling` and `Formed` have the trees that tokens spell. A construct that isn't taken yet has no
//! case there. Which bytes are tokens is the lexer's (`wide_lexer`).
#![tactic(auto)]

pub mod word;
