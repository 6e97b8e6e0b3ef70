//! The laws of these crates. They are functions with nothing in them, called so that both compilers
//! build them.
use backup_job::{jobs_go_on, jobs_write_layers, started_jobs_run};
use introduced_spans::{full_plans_are_whole, plans_stand};
use layer_book::{last_full_is_greatest, layers_are_exact, maps_carry, subdirectories_are_exact};
use layer_chains::{chains_show_tables, joins_are_direct};
use layer_objects::{
    infos_are_proper, layers_are_final, layers_may_be_written, manifests_tell, pieces_are_chunks,
};
use restore_rows::checks_find_faults;
use stored_chunks::are_bytes;

pub fn state_all() {
    plans_stand();
    full_plans_are_whole();
    subdirectories_are_exact::<u8>();
    layers_are_exact::<u8>();
    last_full_is_greatest::<u8>();
    maps_carry::<u8, u8>();
    started_jobs_run();
    jobs_write_layers();
    jobs_go_on();
    pieces_are_chunks();
    infos_are_proper();
    checks_find_faults();
    chains_show_tables();
    joins_are_direct();
    are_bytes(b"");
    layers_are_final();
    layers_may_be_written();
    manifests_tell();
}
