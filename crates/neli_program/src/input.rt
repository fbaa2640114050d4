//! Reads a whole input.

ghost use Rattle.std.specs.Prelude.{◌≡◌, IfOk, IfErr};
ghost use Rattle.neli_program.specs.Inputs.{HasAtLeast, IsInput};

use std::alloc::{AllocError, Global};
use std::io;
use std::io::Read;

/// The maximum number of calls of `read`.
const MOST_READS: u32 = 1_000_000;

/// The maximum number of bytes that one call of `read` returns: a million calls then return some 4 GB.
const PIECE: usize = 4096;

/// Why the input was not read.
#[derive(Clone, Copy, Debug, PartialEq, Eq)]
pub enum InputError {
    /// A call of `read` failed.
    Failed,
    /// The input did not end within a million calls of `read`.
    Endless,
    /// Memory ran out.
    Memory,
}

impl From<io::Error> for InputError {
    ghost use Rattle.std.specs.Prelude.{◌≡◌};
    ghost use Rattle.neli_program.specs.declared.input.InputError.TheVariants as input;

    ghost from_gives = { λ _ e. e ≡ input.Failed };

    fn from(_error: io::Error) -> InputError {
        InputError::Failed
    }
}

impl From<AllocError> for InputError {
    ghost use Rattle.std.specs.Prelude.{◌≡◌};
    ghost use Rattle.neli_program.specs.declared.input.InputError.TheVariants as input;

    ghost from_gives = { λ _ e. e ≡ input.Memory };

    fn from(_error: AllocError) -> InputError {
        InputError::Memory
    }
}

/// Reads all the bytes that the input still has.
///
/// Refused if a call of `read` fails, if the input has not ended after a million calls, and if memory runs out; only an
/// input with a byte or more takes memory. The bytes that were read are lost then.
#[tactic(auto, using(crate::proofs::Streams::consumes_long, crate::proofs::Streams::longer))]
pub fn read_whole<R: Read>(alloc: Global, input: &mut R) -> Result<Vec<u8>, InputError>
    ensures whole { IfOk result (λ bytes. IsInput (R.remaining input.old) bytes.items) }
    // Each call before the end returns a byte or more.
    ensures endless { IfErr result (λ e. e ≡ InputError.Endless
        → HasAtLeast 1000000 (R.remaining input.old)) }
    ensures memory { IfErr result (λ e. e ≡ InputError.Memory → HasAtLeast 1 (R.remaining input.old)) }
{
    let mut bytes = Vec::new(alloc);
    let mut piece = [0; PIECE];
    for _turn in 0..MOST_READS {
        let count = input.read(&mut piece)?;
        if count == 0 {
            return Ok(bytes);
        }
        bytes.extend_from_slice(&piece[..count])?;
    }
    Err(InputError::Endless)
}
