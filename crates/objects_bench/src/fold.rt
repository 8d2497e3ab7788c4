// Bytes folded to a number, so that no copy of them can be left out.
ghost use Rattle.std.specs.Prelude.{◌≡◌};
ghost use Rattle.objects_bench.specs.Folding.{folded};

/// The bytes folded to a number.
pub fn fold(bytes: &[u8]) -> u64
    ensures { result ≡ folded 0 bytes.now }
{
    let mut sum = 0u64;
    for byte in bytes {
        sum = sum.wrapping_mul(31).wrapping_add(u64::from(*byte));
    }
    sum
}
