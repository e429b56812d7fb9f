//! Hosts that each have one stream of lines, those of their own shard of the flights, and the parts of a carry that they have: what their journals are
//! together, as laws.
//! It knows the definitions of routes, feeds, parts and journals, and nothing of who sends a line, how one is answered, or how a part comes about.
#![tactic(auto)]

pub mod laws;
