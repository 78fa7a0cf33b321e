//! The definitions of the machine over numbers, lists and records, which the contracts of every
//! crate cite. They stand in `specs/`, one file a subject; there is no code here.
#![tactic(auto)]
