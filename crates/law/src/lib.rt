// The law of a study over every run of its calls: definitions to believe in specs/, and a small function for each theorem.
#![tactic(auto)]

pub mod theorems;
