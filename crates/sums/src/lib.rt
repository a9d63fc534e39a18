// Exact products and sums of 64-bit numbers without a wider number: `None` is one that has passed 2^64 - 1.
#![tactic(auto)]

ghost use Rattle.std.specs.Prelude.{◌≡◌, ◌*◌};
ghost use Rattle.sums.specs.Sums.{capped, plus_of};

use models::{Price, Quantity};

// The product of two numbers below this stays below 2^64.
const HALF_WIDE: u64 = 4294967296;

// Price times quantity. Where both are small, as nearly always, nothing has to be looked at to see that their product is.
pub fn product(price: Price, qty: Quantity) -> Option<u64>
    ensures { result ≡ capped (price.0 * qty.0) }
{
    let p = price.0;
    let q = qty.0;
    if p < HALF_WIDE && q < HALF_WIDE {
        return Some(p * q);
    }
    p.checked_mul(q)
}

pub fn plus(a: Option<u64>, b: Option<u64>) -> Option<u64>
    ensures { result ≡ plus_of a b }
{
    a?.checked_add(b?)
}
