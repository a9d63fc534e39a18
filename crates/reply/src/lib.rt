// What the desk answers to an order, as text in a lent buffer: the event's line and a line a fill, or the refusal's line.
#![tactic(auto)]

ghost use Rattle.std.specs.Prelude.{◌≡◌, ◌+◌, ◌*◌, ◌≤◌, length};
ghost use Rattle.overlay.specs.Over.{Put};
ghost use Rattle.fields.specs.Output.{Lent};
ghost use Rattle.rows.specs.Rows.{fill_row, places};
ghost use Rattle.stats.specs.Statistics.{fills_in};
ghost use Rattle.feed.specs.Feed.{fill_lines};
ghost use Rattle.text.specs.Text.{longest};
ghost use Rattle.reply.specs.Reply.{count_of, told_of};

use fields::Output;
use models::{FillMetadata, OrderEvent, Refusal};
use rows::Row;
use text::{put_event, put_fill, put_refused};

// A line for each of the first `count` fills, or as many as there are places.
fn put_fills(output: &mut Output<'_>, fills: &[u64], count: usize)
    requires { output.old.at + places fill_row fills.now * longest ≤ length output.old.bytes.now }
    ensures lent { Lent output.old output.new }
    ensures put { Put output.old.bytes.now output.old.at (fill_lines (fills_in fills.now count)) output.new.bytes.now output.new.at }
{
    for i in 0..count.min(FillMetadata::places(fills)) {
        put_fill(output, FillMetadata::at(fills, i));
    }
}

// How many fills an event says.
pub fn count_of(event: OrderEvent) -> usize
    ensures { result ≡ count_of event }
{
    match event {
        OrderEvent::Unfilled { .. } | OrderEvent::Placed { .. } | OrderEvent::Canceled { .. } => 0,
        OrderEvent::PartiallyFilled { fills, .. } | OrderEvent::Filled { fills, .. } => fills,
    }
}

// The text of an answer whose fills stand in the rows lent.
pub fn put_answer(output: &mut Output<'_>, answer: Result<OrderEvent, Refusal>, fills: &[u64])
    requires { output.old.at + longest + places fill_row fills.now * longest ≤ length output.old.bytes.now }
    ensures lent { Lent output.old output.new }
    ensures put { Put output.old.bytes.now output.old.at (told_of answer fills.now) output.new.bytes.now output.new.at }
{
    match answer {
        Ok(event) => {
            put_event(output, event);
            put_fills(output, fills, count_of(event));
        }
        Err(refusal) => put_refused(output, u64::from(refusal)),
    }
}
