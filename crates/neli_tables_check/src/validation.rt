//! The two parsers of the kernel.

/// A parser of the kernel (`lib/nlattr.c`): what it refuses of a request.
#[derive(Clone, Copy, Debug, PartialEq, Eq)]
pub enum Validation {
    /// The strict parser (`NL_VALIDATE_STRICT`): attributes that it does not know, numbers longer than they are, nests
    /// without the flag `NLA_F_NESTED` and others with it, and bytes behind the attributes, are refused too.
    Strict,
    /// The liberal parser of older messages (`NL_VALIDATE_LIBERAL`).
    Liberal,
}
