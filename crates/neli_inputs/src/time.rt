//! Times of recordings, in nanoseconds since 1970.

ghost use Rattle.std.specs.Prelude.{◌≡◌, ◌≤◌, ◌^◌, IfSome};
ghost use Rattle.neli_inputs.specs.Times.{fitting, time_of, ticks_a_second};

/// This power, if it has at most 64 bits.
fn power(base: u64, exponent: u8) -> Option<u64>
    requires { 1 ≤ base }
    ensures value { result ≡ fitting (base ^ exponent) }
    ensures positive { IfSome result (λ power. 1 ≤ power) }
{
    let mut power = 1u64;
    for _ in 0..exponent {
        power = power.checked_mul(base)?;
    }
    Some(power)
}

/// The ticks of a clock in a second, by the resolution of an interface: a power of ten, or of two if the highest bit is
/// set (`if_tsresol` of a pcapng file), if they have at most 64 bits.
fn ticks_a_second(resolution: u8) -> Option<u64>
    ensures value { result ≡ ticks_a_second resolution }
    ensures positive { IfSome result (λ ticks. 1 ≤ ticks) }
{
    if resolution < 128 {
        power(10, resolution)
    } else {
        power(2, resolution - 128)
    }
}

/// The nanoseconds of so many ticks, rounded down, if they have at most 64 bits.
pub(crate) fn time_of(ticks: u64, resolution: u8) -> Option<u64>
    ensures { result ≡ time_of ticks resolution }
{
    let a_second = ticks_a_second(resolution)?;
    let nanoseconds = u128::from(ticks) * 1_000_000_000 / u128::from(a_second);
    u64::try_from(nanoseconds).ok()
}
