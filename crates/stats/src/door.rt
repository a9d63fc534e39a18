// The statistics by loan: changed in place, giving what the value form gives. Document 01 names this form (docs/DECISIONS.md).
ghost use Rattle.stats.specs.Statistics.{fills_in, Follows};

use crate::Statistics;
use models::Refusal;

pub fn record_fills(statistics: &mut Statistics, fills: &[u64], count: usize) -> Result<(), Refusal>
    ensures { Follows statistics.old (fills_in fills.now count) result statistics.new }
{
    *statistics = statistics.recorded(fills, count)?;
    Ok(())
}
