// The C boundary of the instructions: encoding and decoding.
#![tactic(auto)]

pub mod instructions;
