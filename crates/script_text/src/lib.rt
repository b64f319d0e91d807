//! The script language: how a line is read, and how an answer is printed. `docs/script.md` has every form with an
//! example.
#![tactic(auto)]

mod fields;
mod laws;
mod line;
mod operations;
mod printed;
mod printing;
mod reading;

pub use fields::number_of;
pub use laws::reading_is_the_grammar;
pub use line::{Line, LineFault};
pub use operations::is_looking;
pub use printed::Printed;
pub use printing::print;
pub use reading::read_line;
