// Fills and levels as rows of numbers in a lent slice.
#![tactic(auto)]

ghost use Rattle.std.specs.Prelude.{◌≡◌, ℕ, [], ◌∷◌, ◌+◌, ◌<◌};
ghost use Rattle.std.proofs.Common.{refl, lit<};
ghost use Rattle.rules.specs.Rules as rule;
ghost use Rattle.models.specs.Readings.{side_of, fill_of, level_of};
ghost use Rattle.rules.specs.Whole.{one};
ghost use Rattle.rows.specs.Rows.{RowForm, number_of_side, side_numbered, fill_row, level_row, places, Place, row_at, written};

use models::{BookLevel, FillMetadata, Id, Price, Quantity, Side};

// What stands in a lent slice as a row of so many numbers.
pub trait Row: Copy {
    const WIDTH: usize;

    ghost WIDTH: { ℕ };

    // The rule book's value, how it stands in a row, and what a value of this type means by it.
    ghost Said: { Type 0 };

    ghost form: { RowForm Said };

    ghost meaning: { Self → Said };

    // Put into place i.
    fn put(self, rows: &mut [u64], i: usize)
        requires { Place form rows.old i }
        ensures { rows.new ≡ written form rows.old i (meaning self ∷ []) };

    // What the row in place i says.
    fn at(rows: &[u64], i: usize) -> Self
        requires { Place form rows.now i }
        ensures { meaning result ≡ row_at form rows.now i };

    ghost wide: { form.width ≡ WIDTH };

    ghost some: { 0 < WIDTH };

    // How many places a slice has.
    final fn places(rows: &[u64]) -> usize
        ensures { result ≡ places form rows.now }
    {
        rows.len() / Self::WIDTH
    }
}

// Side and use in one number, as C reads it (include/felavuti.h): a bid's is 0 and an ask's 2, plus 1 where the maker was used up.
const BID: u64 = 0;

const ASK: u64 = 2;

const WHOLE: u64 = 1;

fn side_and_use(side: Side, whole: bool) -> u64
    ensures { result ≡ number_of_side (side_of side) + one whole }
{
    match side {
        Side::Bid => if whole { BID + WHOLE } else { BID },
        Side::Ask => if whole { ASK + WHOLE } else { ASK },
    }
}

fn side_in(v: u64) -> Side
    ensures { side_of result ≡ side_numbered v }
{
    if v / ASK % 2 == 0 {
        Side::Bid
    } else {
        Side::Ask
    }
}

// A fill is five numbers: taker, maker, quantity, price, side and use. Of the last only the two lowest bits count.
impl Row for FillMetadata {
    const WIDTH: usize = 5;

    ghost WIDTH = { 5 };

    ghost Said = { rule.Fill (Unit {0}) };

    ghost form = { fill_row };

    ghost meaning = { fill_of };

    fn put(self, rows: &mut [u64], i: usize) {
        let at = i * Self::WIDTH;
        let side = self.taker_side;
        rows[at] = self.order_1.0;
        rows[at + 1] = self.order_2.0;
        rows[at + 2] = self.qty.0;
        rows[at + 3] = self.price.0;
        rows[at + 4] = side_and_use(side, self.total_fill);
    }

    fn at(rows: &[u64], i: usize) -> FillMetadata {
        let at = i * Self::WIDTH;
        let v = rows[at + 4];
        FillMetadata {
            order_1: Id(rows[at]),
            order_2: Id(rows[at + 1]),
            qty: Quantity(rows[at + 2]),
            price: Price(rows[at + 3]),
            taker_side: side_in(v),
            total_fill: v % 2 == WHOLE,
        }
    }

    ghost wide = { refl };

    ghost some = { lit< tt };
}

// A level is two: price, total quantity.
impl Row for BookLevel {
    const WIDTH: usize = 2;

    ghost WIDTH = { 2 };

    ghost Said = { rule.Level };

    ghost form = { level_row };

    ghost meaning = { level_of };

    fn put(self, rows: &mut [u64], i: usize) {
        let at = i * Self::WIDTH;
        rows[at] = self.price.0;
        rows[at + 1] = self.qty.0;
    }

    fn at(rows: &[u64], i: usize) -> BookLevel {
        let at = i * Self::WIDTH;
        BookLevel {
            price: Price(rows[at]),
            qty: Quantity(rows[at + 1]),
        }
    }

    ghost wide = { refl };

    ghost some = { lit< tt };
}
