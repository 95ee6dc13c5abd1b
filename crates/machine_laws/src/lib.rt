//! Laws of the machine: what holds of every legal history.
//!
//! Each law is the contract of a function without parameters and with an empty body. It speaks of the definitions of
//! `init_machine` alone, so it holds of each core that keeps its history legal.
#![tactic(auto)]

mod commands;
mod histories;
mod processes;
mod reboots;
mod saved;
mod sets;
mod texts;
mod trees;

pub use commands::commands_run_in_order;
pub use histories::{
    beginning_is_legal, deterministic, history_of_inputs, legal_by_place, steps_read_no_saved_pairs,
};
pub use processes::{each_process_ends_once, each_service_has_one_process};
pub use reboots::nothing_after_a_reboot;
pub use saved::{saved_can_be_printed, stored_while_saving};
pub use sets::{read_only_is_put_once, sets_are_counted, values_are_last_sets};
pub use texts::lines_have_text;
pub use trees::tree_is_a_map;
