// The C boundary of saved states.
#![tactic(auto)]

pub mod states;
