// The search among pairs that rise.
ghost use Rattle.std.specs.Prelude.{◌≡◌, ℕ, ◌+◌, ◌*◌, ◌-◌, ◌^◌, ◌<◌, ◌≤◌, length, slice_index_or};
ghost use Rattle.std.specs.List.{AllWithin};
ghost use Rattle.offset_index.specs.Indexed.{Rises};

use crate::steps::Steps;
use std::sync::ledger::Ledger;

// The pair at this position. It is the only look at a pair that a search takes, and it counts one step.
pub(crate) fn look<L: Ledger>(
    pairs: &[(u64, u64)],
    position: usize,
    steps: &mut Steps<L>,
) -> (u64, u64)
    requires { position < length pairs.now }
    ensures pair { (d : ℕ × ℕ) → slice_index_or pairs.now position d ≡ result }
    ensures cost { steps.new ≡ steps.old + 1 }
{
    steps.tick();
    pairs[position]
}

// How many pairs have an offset up to this one. They are the first ones.
pub(crate) fn count_up_to<L: Ledger>(
    pairs: &[(u64, u64)],
    offset: u64,
    steps: &mut Steps<L>,
) -> usize
    requires { Rises pairs.now }
    ensures within { result ≤ length pairs.now }
    ensures first { AllWithin (λ pair. pair.0 ≤ offset) pairs.now 0 result }
    ensures rest { AllWithin (λ pair. offset < pair.0) pairs.now result (length pairs.now) }
    ensures counted { steps.old ≤ steps.new }
    ensures cost { 2 ^ (steps.new - steps.old) ≤ 2 * length pairs.now + 1 }
{
    let mut low = 0;
    let mut high = pairs.len();
    while low < high {
        let middle = low + (high - low) / 2;
        if look(pairs, middle, steps).0 <= offset {
            low = middle + 1;
        } else {
            high = middle;
        }
    }
    low
}
