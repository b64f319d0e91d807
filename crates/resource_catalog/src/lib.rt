//! Named resources of every kind as one machine.
#![tactic(auto)]

ghost use Rattle.log_model.specs.hosted.PlainMachine.{IsPlainMachine};
ghost use Rattle.resource_catalog.specs.Catalog.{catalog_decision};

mod catalog;
mod kinds;
mod names;
mod slots;
mod sorted;

pub use catalog::Catalog;
pub use kinds::AnyResource;

/// Wherever its cells show a plain state, `Catalog` decides, tells and shows what the next entry of that state does. So a host over
/// it is as the plain state (`log_model::plain_machines_are_plain`).
pub fn catalog_is_plain()
    ensures { IsPlainMachine catalog_decision }
{}
