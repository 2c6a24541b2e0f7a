//! When a source has a typed program with facts, as definitions alone.
//!
//! `specs/Sources` goes from its bytes to its tokens, the tree that they spell, the typed tree of that and its facts. `facts_front`
//! reads a source so, or says why it has none; who only speaks of sources stands on these definitions, and not on lexer, parser
//! and checker.
#![tactic(auto)]
