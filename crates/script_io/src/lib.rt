//! Where a script comes from and where its answers go.
#![tactic(auto)]

mod adapters;
mod memory;
mod sink;
mod source;
mod sure;

pub use adapters::{ReadSource, WriteSink};
pub use memory::{MemorySink, MemorySource};
pub use sink::{Sink, put_all};
pub use source::{Failed, Source};
pub use sure::{SureSink, SureSource};
