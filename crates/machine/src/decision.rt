// What is decided on an operation.
use host_types::{Effect, Kind, NoMemory, Reply};
use std::alloc::AllocError;

/// What is stored of a command: what it does, and what it is answered. It is decided once, and it has no condition any more.
#[derive(Debug, PartialEq, Eq, Drop)]
pub struct Decision {
    pub effect: Effect,
    pub reply: Reply,
}

/// Why an operation isn't decided. Nothing is changed by it.
#[derive(Clone, Copy, Debug, PartialEq, Eq)]
pub enum Refuse {
    /// No resource has this name.
    NoName,
    /// The resource is of this kind, which doesn't have the operation or isn't the one to be created.
    Kind { is: Kind },
    /// There are as many names as there may be.
    Names,
    /// The sum is outside of 64 bits. The counter stands at `value`.
    Range { value: i64 },
    /// No memory was left.
    NoMemory,
}

impl From<NoMemory> for Refuse {
    ghost use Rattle.std.specs.Prelude.{◌≡◌};
    ghost use Rattle.machine.specs.declared.decision.Refuse.TheVariants as refuse;

    ghost from_gives = { λ _ e. e ≡ refuse.NoMemory };

    fn from(_: NoMemory) -> Self {
        Refuse::NoMemory
    }
}

impl From<AllocError> for Refuse {
    ghost use Rattle.std.specs.Prelude.{◌≡◌};
    ghost use Rattle.machine.specs.declared.decision.Refuse.TheVariants as refuse;

    ghost from_gives = { λ _ e. e ≡ refuse.NoMemory };

    fn from(_: AllocError) -> Self {
        Refuse::NoMemory
    }
}
