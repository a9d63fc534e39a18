// Lobster's trade and statistics as values: switched, asked, and after fills (lobster 0.7.0, src/models.rs, and what src/orderbook.rs keeps).
#![tactic(auto)]

ghost use Rattle.std.specs.Prelude.{◌≡◌, ◌*◌, ◌<◌, ◌≤◌, min, [], length};
ghost use Rattle.rules.specs.Rules as rule;
ghost use Rattle.stats.specs.Statistics.{statistics_of, rule_trade, totals_of, with_fill, trade_for, over_of, VolumeFits, fills_in, after, Follows};
ghost use Rattle.rows.specs.Rows.{fill_row, places, listed};

use models::{FillMetadata, Price, Quantity, Refusal};
use rows::Row;

pub mod bits; // bits.rt: an average as its bit pattern
pub mod door; // door.rt: the statistics by loan

#[derive(Clone, Copy, PartialEq)]
pub struct Trade {
    pub total_qty: Quantity,
    pub avg_price: f64,
    pub whole_avg_price: Price,
    pub last_price: Price,
    pub last_qty: Quantity,
}

#[derive(Clone, Copy, PartialEq)]
pub struct Statistics {
    pub tracking: bool,
    pub volume: Quantity,
    pub last: Option<Trade>,
}

// S (document 01's sum of price times quantity) and the quantity of some fills, each where it hasn't passed 2^64 - 1.
#[derive(Clone, Copy)]
pub struct Totals {
    pub worth: Option<u64>,
    pub quantity: Option<u64>,
}

impl Totals {
    pub fn none() -> Totals
        ensures { result ≡ totals_of [] }
    {
        Totals {
            worth: Some(0),
            quantity: Some(0),
        }
    }

    // One fill more.
    pub fn with(self, price: Price, qty: Quantity) -> Totals
        ensures { result ≡ with_fill self price.0 qty.0 }
    {
        Totals {
            worth: sums::plus(self.worth, sums::product(price, qty)),
            quantity: sums::plus(self.quantity, Some(qty.0)),
        }
    }
}

// How many of `count` rows there are.
fn counted(fills: &[u64], count: usize) -> usize
    ensures { (result ≡ min count (places fill_row fills.now)) × (result * fill_row.width ≤ length fills.now) }
{
    count.min(FillMetadata::places(fills))
}

// The totals of the first n rows.
fn summed(fills: &[u64], n: usize) -> Totals
    requires { n * fill_row.width ≤ length fills.now }
    ensures { result ≡ totals_of (listed fill_row fills.now n) }
{
    let mut t = Totals::none();
    for i in 0..n {
        let f = FillMetadata::at(fills, i);
        t = t.with(f.price, f.qty);
    }
    t
}

// S and the filled quantity, each turned to the nearest double, and divided with one rounding.
pub fn average(worth: u64, qty: Quantity) -> f64
    ensures { result ≡ rule.average worth qty.0 }
{
    std::num::nearest_u64_to_f64(worth) / std::num::nearest_u64_to_f64(qty.0)
}

fn trade_of(qty: Quantity, worth: u64, last_price: Price, last_qty: Quantity) -> Trade
    requires { 0 < qty.0 }
    ensures { rule_trade result ≡ trade_for qty.0 worth last_price.0 last_qty.0 }
{
    Trade {
        total_qty: qty,
        avg_price: average(worth, qty),
        whole_avg_price: Price(worth / qty.0),
        last_price,
        last_qty,
    }
}

impl Statistics {
    pub fn fresh() -> Statistics
        ensures { statistics_of result ≡ (rule.fresh {A = Unit {0}}).stats }
    {
        Statistics {
            tracking: false,
            volume: Quantity(0),
            last: None,
        }
    }

    // Switched tracking: no other number changes.
    pub fn track_stats(self, track: bool) -> Statistics
        ensures { result ≡ record { tracking = track; volume = self.volume; last = self.last } }
    {
        Statistics {
            tracking: track,
            ..self
        }
    }

    pub fn last_trade(self) -> Option<Trade>
        ensures { result ≡ self.last }
    {
        self.last
    }

    pub fn traded_volume(self) -> Quantity
        ensures { result ≡ self.volume }
    {
        self.volume
    }

    // The statistics after an order that filled `qty`, S being `worth`.
    pub fn traded(
        self,
        qty: Quantity,
        worth: u64,
        last_price: Price,
        last_qty: Quantity,
    ) -> Statistics
        requires { VolumeFits self qty.0 }
        ensures { statistics_of result ≡ rule.traded self.tracking qty.0 worth last_price.0 last_qty.0 (statistics_of self) }
    {
        if !self.tracking || qty.0 == 0 {
            return self;
        }
        Statistics {
            tracking: true,
            volume: Quantity(self.volume.0 + qty.0),
            last: Some(trade_of(qty, worth, last_price, last_qty)),
        }
    }

    // Refusal 3: tracking is on, there are fills, and S or the new volume exceeds 2^64 - 1.
    pub fn too_large(self, fills: usize, totals: Totals) -> bool
        ensures { result ≡ over_of self fills totals }
    {
        if !self.tracking || fills == 0 {
            return false;
        }
        totals.worth.is_none() || sums::plus(Some(self.volume.0), totals.quantity).is_none()
    }

    // The statistics after any list of fills: the first `count` rows of those lent, or all if they are fewer.
    pub fn recorded(self, fills: &[u64], count: usize) -> Result<Statistics, Refusal>
        ensures { Follows self (fills_in fills.now count) result (after self result) }
    {
        let n = counted(fills, count);
        let totals = summed(fills, n);
        if self.too_large(n, totals) {
            return Err(Refusal::SumTooLarge);
        }
        if n == 0 {
            return Ok(self);
        }
        // A sum may still have passed 2^64 - 1 where tracking is off: then nothing is kept of it.
        let (Some(worth), Some(filled)) = (totals.worth, totals.quantity) else {
            return Ok(self);
        };
        let last = FillMetadata::at(fills, n - 1);
        Ok(self.traded(Quantity(filled), worth, last.price, last.qty))
    }
}
