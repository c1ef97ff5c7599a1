// The order of rows by their rowids.
ghost use Rattle.std.specs.Prelude.{◌≡◌, None};
ghost use Rattle.sqlite.specs.Tree.{rowid};
ghost use Rattle.store_reads.specs.Reads.{follows, integer_in, rise_above};

use sqlite::Row;
use sqlite::types::ValueRef;

// The rowid of a row that is read with it, where it is an integer.
fn rowid(row: &Row) -> Option<i64>
    ensures { result ≡ integer_in (rowid row.now) }
{
    match row.get_ref(0) {
        Ok(ValueRef::Int(id)) => Some(id),
        _ => None,
    }
}

// Whether there is a rowid, above the last one, if there was one.
fn follows(last: Option<i64>, id: Option<i64>) -> bool
    ensures { result ≡ follows last id }
{
    match (last, id) {
        (_, None) => false,
        (None, Some(_)) => true,
        (Some(last), Some(id)) => last < id,
    }
}

// Whether the rowids are integers, each above the one before it.
// A write needs that they differ, which no clause of `sqlite` says of a file that somebody else made.
pub fn rowids_rise(rows: &[Row]) -> bool
    ensures { result ≡ rise_above None rows.now }
{
    let mut last = None;
    for row in rows {
        let id = rowid(row);
        if !follows(last, id) {
            return false;
        }
        last = id;
    }
    true
}
