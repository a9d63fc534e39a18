// An average from its bit pattern, at a NaN too: whatever number is lent, it is a double.
ghost use Rattle.std.specs.Prelude.{◌≡◌};
ghost use Rattle.std.specs.Float.{binary64};
ghost use Rattle.std.specs.Float.Ieee.{of_bits};

// The bit of the sign, and the pattern of infinity: what is above it, the sign aside, is a NaN.
const SIGN: u64 = 0x8000_0000_0000_0000;

const INFINITY: u64 = 0x7ff0_0000_0000_0000;

pub fn of_bits(n: u64) -> f64
    ensures { result ≡ of_bits binary64 n }
{
    let m = n % SIGN;
    if INFINITY < m {
        return 0.0 / 0.0;
    }
    f64::from_bits(n)
}
