//! Tests of the program and of its host that can't be rows of `rows`: of a source of its own, and of calls in Rust. The
//! library has nothing but its tests.
#![tactic(auto)]

#[cfg(test)]
mod folder_tests;
#[cfg(test)]
mod host_tests;
#[cfg(test)]
mod long_tests;

#[cfg(test)]
use std::fmt::Debug;
#[cfg(test)]
use std::process::Abort;

/// Asserts that both are the same.
#[cfg(test)]
pub(crate) fn same<T: PartialEq + Debug + Drop>(rt: &impl Abort, found: T, wanted: T) {
    assert_eq!(rt; found, wanted);
}
