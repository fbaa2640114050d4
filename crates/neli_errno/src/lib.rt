//! The error numbers of Linux, with their names and meanings.
//!
//! [`Errno`] is one of them. The numbers and the names are those of `asm-generic/errno-base.h` and
//! `asm-generic/errno.h`, where `EWOULDBLOCK` is `EAGAIN` and `EDEADLOCK` is `EDEADLK`; the meanings are the texts of
//! `strerror(3)`. `ENOTSUPP` is of the kernel's own `include/linux/errno.h`, with its comment there: answers have it.
//!
//! `specs/Errnos.antt` has the table.
#![tactic(auto)]

mod number;
mod table;

pub use number::Errno;
