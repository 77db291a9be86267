// The standards of both logs, merged into their rising sequence as they are written.
ghost use Rattle.std.specs.Prelude.{◌≡◌, ◌+◌, ◌*◌, ◌^◌, ◌≤◌, ◌<◌, length};
ghost use Rattle.filling.specs.Buffer.{Put};
ghost use Rattle.records.specs.Encode.{standard_bytes, joined};
ghost use Rattle.records.specs.Log.{standard_at};
ghost use Rattle.rules.specs.Keys.{standard_number};
ghost use Rattle.joining.specs.Turns.{Left, MergeableLogs, NextOfLogs, merged_standards};

use crate::moved::put_standard;
use records::StandardRecords;

// The module, the recipe and the start of standard i, as one number of 51 bits.
fn key(standards: StandardRecords, i: usize) -> u64
    requires { i < standards.header.standards }
    ensures { result + 2 ^ 35 ≡ standard_number (standard_at standards.entry.bytes.now standards.entry.header i) }
{
    let from = 10 + 6 * standards.header.states + 10 * i;
    bits::read_word(standards.bytes, 8 * from) / 0x2000
}

// Whether the first log's standard i is next, and not the second's j: that one is over, or its key, moved up, is above.
fn first_is_next(
    first: StandardRecords,
    second: StandardRecords,
    i: usize,
    j: usize,
    by: u64,
) -> bool
    requires left { Left first.header.standards second.header.standards i j }
    requires mergeable { MergeableLogs first.bytes.now first.header second.bytes.now second.header by }
    ensures { NextOfLogs first.entry.bytes.now first.entry.header second.entry.bytes.now second.entry.header by i j result }
{
    if i == first.header.standards {
        return false;
    }
    if j == second.header.standards {
        return true;
    }
    key(first, i) < key(second, j) + by
}

// Writes the merge. The caller owes the room, and that the first's starts are before what the second's move by.
pub fn put_standards(
    buf: &mut [u8],
    at: usize,
    first: StandardRecords,
    second: StandardRecords,
    by: u64,
) -> usize
    requires room { at + 10 * (first.header.standards + second.header.standards) ≤ length buf.old }
    requires mergeable { MergeableLogs first.bytes.now first.header second.bytes.now second.header by }
    ensures place { result ≡ at + 10 * (first.entry.header.standards + second.entry.header.standards) }
    ensures put { Put (joined standard_bytes (merged_standards first.entry.bytes.now first.entry.header second.entry.bytes.now second.entry.header by)) buf.old at result buf.new }
{
    let n = first.header.standards + second.header.standards;
    let mut i = 0;
    let mut j = 0;
    let mut next = at;
    while i + j < n {
        if first_is_next(first, second, i, j, by) {
            next = put_standard(buf, next, first, i, 0);
            i += 1;
        } else {
            next = put_standard(buf, next, second, j, by);
            j += 1;
        }
    }
    next
}
