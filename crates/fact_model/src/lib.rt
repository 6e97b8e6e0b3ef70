//! Dated facts over any keys and values: definitions that the store and the machine share.
#![tactic(auto)]

mod laws;

pub use laws::{
    kept_once_more, kept_suffices, listings_are_exact, maps_carry, newest_is_exact, order_is_free,
    scans_are_exact,
};
