// Reading: the node's own part of a flat slice of records, one a node, all of one width.
#![tactic(auto)]

ghost use Rattle.std.specs.Prelude.{◌≡◌, length};
ghost use Rattle.records.specs.Records.{records_fit, read_test, read_at};

use answers::Refusal;
use cursor::Cursor;
use ends::Ends;

// The width is 1 to 256, and the records are as many bytes as that makes for a pool of this many nodes. (`&&` once, so that the
// product is one that fits; where a second stood, the check lost that.)
#[tactic(auto, unfolding(crate::specs::Records::records_fit))]
pub fn records_fit(nodes: usize, width: usize, len: usize) -> bool
    ensures { result ≡ records_fit nodes width len }
{
    words::names::pool_fits(nodes) & (width <= 256) && (0 < width) & (len == width * nodes)
}

// The tests of a read: 1, 4, 5, 8.
#[tactic(auto, unfolding(crate::specs::Records::read_test))]
pub fn read_test(
    cursor: Cursor,
    words: &[u32],
    ends: Ends,
    records: &[u8],
    width: usize,
) -> Result<(), Refusal>
    ensures { result ≡ read_test words.now ends cursor (length records.now) width }
{
    if !records_fit(words.len(), width, records.len()) {
        return Err(Refusal::Size);
    }
    cursor.some_test(cursor.stand_test(words, ends))
}

// The record of the node under the cursor, a part of the lent slice; the empty part if refused.
pub fn read<'a>(
    cursor: Cursor,
    words: &[u32],
    ends: Ends,
    records: &'a [u8],
    width: usize,
) -> &'a [u8]
    ensures { result.now ≡ read_at words.now ends cursor records.now width }
{
    if read_test(cursor, words, ends, records, width).is_err() {
        return &records[..0];
    }
    let Some(node) = cursor.node(words.len()) else {
        return &records[..0];
    };
    let from = node.0 as usize * width;
    let to = from + width;
    &records[from..to]
}
