// An average as its bit pattern, at a NaN too: statistics may hold any values.
ghost use Rattle.std.specs.Prelude.{◌≡◌, to_bits};
ghost use Rattle.std.specs.Float.{binary64};

// What stands for every NaN.
const NAN: u64 = 0x7ff8_0000_0000_0000;

pub fn bits_of(x: f64) -> u64
    ensures { result ≡ to_bits binary64 x }
{
    if x != x {
        return NAN;
    }
    f64::to_bits(x)
}
