// How many rows a desk hands to its store for each request, which a store that counts its calls sees. A turn may have a tracker and
// its number before it, as in `T1 2: 23:55 ended 10 | names -`: the tracker's text is what is asked.
use super::benches::{Bench, called, called_numbered, closed, created};
use super::counted::Counted;
use plan_basics::{Refusal, TrackerName};
use plan_records::Reply;
use sqlite::{Connection, MemStore};
use std::alloc::Global;
use test_nights::{cut, is_told, request};

// A desk over a store that counts.
type Counting = Bench<Counted<MemStore>>;

// Each line has how many rows are put into tables by a request, in place of those of their keys or as new ones, and how many are
// taken out; and the request. The row of the plan is written where its clock changes, and each other one that changes: eighteen more
// are new by the load, and bills bring an occurrence, its operation and its need. What a tracker reports writes its receipt, too; what
// is answered already writes nothing. In the end two occurrences leave with six operations, four dependencies and two needs, and one
// comes in with an operation.
const NIGHT: &str = "19 0 = 21:00 load STATIONS RUNS PRINTING CHAIN LAST FILE KEEPS | names -
3 0 = 22:00 started 5 | names -
3 0 = 22:10 ended 5 | names 10
0 0 = 22:10 tick | names -
3 0 = 22:40 ended 10 | names 20
4 0 = 22:45 add BILLS | names -
6 0 = 23:40 ended 20 | names BILLING.10
4 0 = T1 1: 23:50 ended 40 | names -
4 0 = T1 2: 23:55 ended BILLING.10 | names -
0 0 = T1 2: 23:55 ended BILLING.10 | names -
3 14 = 23:56 extend NEXT_NIGHT | names PAYROLL/2024-03-02T22:00/010
0 0 = 23:56 extend - | names -";

// The same of tape drives: their quantity is written by the load alone, an amount with its need, and it leaves with that.
const TAPES: &str = "15 0 = 22:00 load DRIVES IN_TURN HALF_HOURS ONE_TWO_ONE | names AAA.10 CCC.10
2 0 = 22:05 away TAPE | names -
5 0 = 22:06 add URGENT TWO_DRIVES | names -
3 0 = 22:10 ended AAA.10 | names -
3 0 = 22:15 delete DDD | names -
1 7 = 22:20 extend - | names -";

// What making the tables writes: the row of the plan.
const MADE: (u32, u32) = (1, 0);

// A connection to a store without tables, which counts.
fn blank(alloc: Global) -> Option<Connection<Counted<MemStore>>> {
    let store = MemStore::new(alloc, &[]).ok()?;
    Connection::over(alloc, Counted::new(store)).ok()
}

// A desk that is made over it.
fn made(alloc: Global) -> Option<Counting> {
    match blank(alloc) {
        Some(conn) => created(alloc, conn).ok(),
        None => None,
    }
}

// What a desk replies to a tracker, and its number, who asks what a turn says.
fn reply_to_tracker(alloc: Global, bench: &mut Counting, who: &str, turn: &str) -> Option<Reply> {
    let (name, number) = cut(who, " ")?;
    let (asked, _) = cut(turn, " | ")?;
    let tracker = TrackerName::from_text(name.as_bytes())?;
    let number = number.parse().ok()?;
    let request = request(alloc, turn)?;
    Some(called_numbered(bench, &tracker, number, asked.as_bytes(), &request))
}

// What it replies to an operator who asks that.
fn reply_to_operator(alloc: Global, bench: &mut Counting, turn: &str) -> Option<Reply> {
    match request(alloc, turn) {
        Some(request) => Some(called(bench, &request)),
        None => None,
    }
}

// Whether a desk answers a turn as it says.
fn is_answered(alloc: Global, bench: &mut Counting, line: &str) -> Option<bool> {
    let reply = match cut(line, ": ") {
        Some((who, turn)) => reply_to_tracker(alloc, bench, who, turn)?,
        None => reply_to_operator(alloc, bench, line)?,
    };
    is_told(&reply, line)
}

// Whether a desk answers each of so many lines as it says.
fn are_answered(alloc: Global, bench: &mut Counting, lines: &str, count: usize) -> Option<bool> {
    for line in lines.lines().take(count) {
        let (_, turn) = cut(line, " = ")?;
        if is_answered(alloc, bench, turn) != Some(true) {
            return None;
        }
    }
    Some(true)
}

// How many rows were put into tables, and how many taken out, by so many lines.
fn written(alloc: Global, lines: &str, count: usize) -> Option<(u32, u32)> {
    let mut bench = made(alloc)?;
    let is_so = are_answered(alloc, &mut bench, lines, count) == Some(true);
    let written = closed(bench).into_store().written();
    if is_so { Some(written) } else { None }
}

// How many rows so many lines say, beside those that making the tables writes.
fn told(lines: &str, count: usize) -> Option<(u32, u32)> {
    let (mut put, mut deleted) = MADE;
    for line in lines.lines().take(count) {
        let (numbers, _) = cut(line, " = ")?;
        let (more, less) = cut(numbers, " ")?;
        put = put.checked_add(more.parse().ok()?)?;
        deleted = deleted.checked_add(less.parse().ok()?)?;
    }
    Some((put, deleted))
}

// Whether as many rows are written by so many lines as they say.
fn are_written(alloc: Global, lines: &str, count: usize) -> Option<bool> {
    Some(told(lines, count)? == written(alloc, lines, count)?)
}

// How many rows are written by each of these lines; or the first that writes others.
fn each_is_written(alloc: Global, lines: &'static str) -> Result<(), &'static str> {
    let mut count = 0usize;
    for line in lines.lines() {
        count = count.saturating_add(1);
        if are_written(alloc, lines, count) != Some(true) {
            return Err(line);
        }
    }
    Ok(())
}

/// How many rows are written by each request; or the line of one of which that isn't so.
pub fn rows_that_are_written(alloc: Global) -> Result<(), &'static str> {
    each_is_written(alloc, NIGHT)?;
    each_is_written(alloc, TAPES)
}

// The connection to a database in which the name of a table is taken.
fn with_need(mut conn: Connection<Counted<MemStore>>) -> Option<Connection<Counted<MemStore>>> {
    if conn
        .execute_batch("CREATE TABLE need (id INTEGER PRIMARY KEY)")
        .is_ok()
    {
        Some(conn)
    } else {
        None
    }
}

// Whether no desk is made over a connection, since its database is damaged.
fn is_damaged(alloc: Global, conn: Connection<Counted<MemStore>>) -> bool {
    matches!(created(alloc, conn), Err((Refusal::Damaged, _)))
}

/// No desk is made in a database in which the name of a table is taken.
pub fn none_is_made(alloc: Global) -> bool {
    match blank(alloc) {
        Some(conn) => match with_need(conn) {
            Some(conn) => is_damaged(alloc, conn),
            None => false,
        },
        None => false,
    }
}
