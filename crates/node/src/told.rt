//! What a record says of its ways, read off the table by `clauses`. Rests on `records`, Records.
ghost use Rattle.node.specs.Told.{LeafWays};

use checks::accepted::Rows;
use clauses::Clauses;
use clauses::lost::Gone;
use clauses::sets::Numbers;
use records::Node;

// The numbers and the faults of a record are taken apart here and put together in `leaf_record`, once each: two conversions would be no plainer.
/// The remaining ways of a record.
#[tactic(auto, unfolding(records::specs::Records::record_ways, rules::specs::Table::ways))]
pub fn ways_of<'a>(rows: Rows<'a>, x: &Node) -> Clauses<'a>
    ensures { LeafWays rows.entry.present.now rows.entry.absent.now x.now result }
{
    let numbers = Numbers {
        low: x.waysa,
        high: x.waysb,
    };
    let gone = Gone {
        present: x.present,
        absent: x.absent,
        out: x.out,
    };
    Clauses::of(rows, numbers, gone)
}
