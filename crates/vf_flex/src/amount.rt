//! Amounts of a caller in C, in as many bits as a slot's calls take. No slot has room for more.
ghost use Rattle.std.specs.Prelude.{◌≡◌};
ghost use Rattle.vf_flex.specs.LentSlotCalls.{nearest, nearest_amount};

/// A number of bytes, or the greatest of 32 bits where it has more.
pub fn nearest(n: usize) -> u32
    ensures { result ≡ nearest n }
{
    match u32::try_from(n) {
        Ok(n) => n,
        Err(_) => u32::MAX,
    }
}

/// An amount up or down, or the nearest that 32 bits with a sign hold.
pub fn nearest_amount(delta: isize) -> i32
    ensures { result ≡ nearest_amount delta }
{
    match i32::try_from(delta) {
        Ok(delta) => delta,
        Err(_) if delta < 0 => i32::MIN,
        Err(_) => i32::MAX,
    }
}
