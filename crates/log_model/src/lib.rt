//! What a log and a run over it mean. The definitions are in `specs/`, and `docs/definitions.md` retells them; their laws are here.
#![tactic(auto)]

mod cleaning_laws;
mod hosted_laws;
mod kinds_laws;
mod replay_laws;
mod serving_laws;

pub use cleaning_laws::{
    append_keeps, central_law, central_law_of_logs, fresh_is_cleaned, major_keeps, marks_follow,
    marks_law, minor_keeps, quiet_grows, quiet_is_greatest, released_grows, sessions_law,
};
pub use hosted_laws::{
    admitted_is_in_range, admitted_keeps_sound, alives_follow, central_law_of_machines,
    changes_compose, entries_keep_sound, hosted_log_grows, hosted_log_is_whole, hosted_quiet_grows,
    logs_are_sound, machine_part_follows, marks_law_of_machines, next_index_is_free,
    places_are_parted, plain_machines_are_plain, session_places_are,
};
pub use kinds_laws::{
    closes_show, kinds_are_lawful, kinds_decide_as_plain, kinds_have_one_owner, kinds_keep_showing,
    kinds_store_their_own, others_show, own_cells_are_read, own_cells_decide, resource_closes_show,
    resource_rows_show, rows_are_lawful, rows_show, what_is_shown_is_read,
};
pub use replay_laws::{
    admitted_is_replayed, cells_show, cells_tell, replay_gives_fold, replay_gives_hosted_fold,
    replay_law, replay_of_logs,
};
pub use serving_laws::{
    acks_are_points, batches_are_linked, batches_grow, client_takes_all, client_takes_run,
    keeps_the_rest, serves_in_turn,
};
