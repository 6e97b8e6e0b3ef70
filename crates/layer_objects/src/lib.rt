//! The objects of a layer by its record and the tables of its cluster, that they are final, and
//! that they may be written.
#![tactic(auto)]

mod laws;

pub use laws::{
    entries_are_cut, first_versions_agree, infos_are_proper, layers_are_final,
    layers_may_be_written, manifests_tell, past_chains, pieces_are_chunks,
};
