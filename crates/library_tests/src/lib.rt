//! The tests of the libraries below the program, in one program: each program of tests costs a check of its own.
#![tactic(auto)]

#[cfg(test)]
mod asks;
#[cfg(test)]
mod cell_table_tests;
#[cfg(test)]
mod checks;
#[cfg(test)]
mod choice_tests;
#[cfg(test)]
mod commit_lending_tests;
#[cfg(test)]
mod counted_files;
#[cfg(test)]
mod disk_files_tests;
#[cfg(test)]
mod disk_locks_tests;
#[cfg(test)]
mod disk_memory_tests;
#[cfg(test)]
mod event_batches_tests;
#[cfg(test)]
mod host_core_batch_tests;
#[cfg(test)]
mod host_core_expiry_tests;
#[cfg(test)]
mod host_core_marks_tests;
#[cfg(test)]
mod host_core_tests;
#[cfg(test)]
mod host_types_tests;
#[cfg(test)]
mod kind_tests;
#[cfg(test)]
mod machine_tests;
#[cfg(test)]
mod machines;
#[cfg(test)]
mod many_files_tests;
#[cfg(test)]
mod offset_index_tests;
#[cfg(test)]
mod plain_cells;
#[cfg(test)]
mod released_marks_tests;
#[cfg(test)]
mod resource_catalog_tests;
#[cfg(test)]
mod resources;
#[cfg(test)]
mod script_io_tests;
#[cfg(test)]
mod script_text_tests;
#[cfg(test)]
mod session_table_tests;
#[cfg(test)]
mod teller;
#[cfg(test)]
mod value_counter_tests;
