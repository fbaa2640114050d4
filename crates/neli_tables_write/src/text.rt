//! Texts, as bytes.

ghost use Rattle.std.specs.Prelude.{◌≡◌, ◌++◌, ◌∷◌, [], IfOk, Some};

use crate::Why;
use std::alloc::{AllocError, Global};

/// Bytes, and a zero behind them.
fn ended(alloc: Global, text: &[u8]) -> Result<Vec<u8>, AllocError>
    ensures { IfOk result (λ bytes. bytes.items ≡ text.now ++ 0 ∷ []) }
{
    let mut bytes = Vec::with_capacity(alloc, text.len().saturating_add(1))?;
    bytes.extend_from_slice(text)?;
    bytes.push(0)?;
    Ok(bytes)
}

/// The bytes of a text with a zero at its end, which read as the text.
///
/// Refused with [`Why::ZeroInside`] where there is a zero in it, at which Linux would end it, and with
/// [`Why::Memory`].
pub fn text_bytes(alloc: Global, text: &str) -> Result<Vec<u8>, Why>
    ensures { IfOk result (λ bytes. bytes.items ≡ text.now ++ 0 ∷ []) }
{
    if text.as_bytes().contains(&0) {
        return Err(Why::ZeroInside);
    }
    Ok(ended(alloc, text.as_bytes())?)
}
