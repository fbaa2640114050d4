//! A list that a walk is in.

use crate::{Nest, Step};

/// How many lists, each in a nest of the one before, a walk enters at most: as many as the kernel
/// itself follows in a policy (`MAX_POLICY_RECURSION_DEPTH` of `lib/nlattr.c`).
pub const MAX_DEPTH: usize = 10;

/// What a list has.
#[derive(Clone, Copy, Debug, PartialEq, Eq)]
pub struct Sort {
    /// What the attributes are, or those of the hops.
    pub nest: Nest,
    /// Whether it has hops.
    pub is_hops: bool,
}

/// A list.
#[derive(Clone, Copy, Debug)]
pub struct Listed<'b> {
    /// What it has.
    pub sort: Sort,
    /// Its bytes.
    pub bytes: &'b [u8],
}

/// A list that a walk is in.
#[derive(Clone, Copy, Debug)]
pub struct Level<'b> {
    /// The whole of it.
    pub list: Listed<'b>,
    /// What is left.
    pub rest: &'b [u8],
    /// What was given last.
    pub inside: Step,
}

impl<'b> Default for Level<'b> {
    fn default() -> Self {
        Level {
            list: Listed {
                sort: Sort {
                    nest: Nest::NONE,
                    is_hops: false,
                },
                bytes: &[],
            },
            rest: &[],
            inside: Step {
                number: None,
                row: None,
            },
        }
    }
}
