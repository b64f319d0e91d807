//! The table of open sessions: who is open and who is due, which replies and batches are kept, and the commits that hold sessions.
#![tactic(auto)]

mod deadlines;
mod open_session;
mod order;
mod replies;
mod sessions;
mod view;

pub use sessions::Sessions;
pub use view::SessionView;
