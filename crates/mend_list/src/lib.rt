// A lent list of records, written from the records of a list.

#![tactic(auto)]

ghost use Rattle.std.specs.Prelude.{length, set, ◌≡◌};
ghost use Rattle.mend_list.specs.Steps.Stored.{stored_to};

use mend_record::Record;

// Writes record k of the lent list, where it has one: the one place where a lent record is stored.
fn store(records: &mut [Record], k: usize, r: Record)
    ensures { records.new ≡ set records.old k r }
{
    if k < records.len() {
        records[k] = r;
    }
}

// The records of a list become the first of the lent list, as many as it has places for.
pub fn write_records(records: &mut [Record], list: &[Record])
    ensures { records.new ≡ stored_to (length list.now) list.now records.old }
{
    for (k, record) in list.iter().enumerate() {
        store(records, k, *record);
    }
}
