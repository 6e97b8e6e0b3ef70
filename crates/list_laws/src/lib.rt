//! Laws on truth values, options, results, orders and lists, which every other crate cites: definitions and lemmas alone.
#![tactic(auto)]
