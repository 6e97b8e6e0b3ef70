//! Histories of databases and tables: the definitions that the machine and the jobs cite, and a law
//! about keys that come twice.
#![tactic(auto)]

mod laws;

pub use laws::first_repeats_are_named;
