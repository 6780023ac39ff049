// The parameters of a message, one after the other (document 01, 'Rust forms that cannot stay').
#![tactic(auto)]

pub mod reader;
