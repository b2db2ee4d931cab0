// Reading from a reader into a lent buffer, and writing one to a writer. Nothing here asks anything of its caller.
#![tactic(auto)]

pub mod failure;
pub mod input;
pub mod output;
