// The eleven tables in which a plan is kept, and the SQL texts that make, write and read them.
//
// | Table | Columns | Key |
// |---|---|---|
// | meta | id INTEGER, version INTEGER, loaded INTEGER, clock INTEGER | id |
// | workstation | name TEXT, attr TEXT | name |
// | interval | ws TEXT, start INTEGER, stop INTEGER, servers INTEGER, r1 INTEGER, r2 INTEGER | ws, start |
// | resource | name TEXT, available INTEGER | name |
// | occurrence | app TEXT, ia INTEGER, priority INTEGER, deadline INTEGER, status TEXT | app, ia |
// | operation | app TEXT, ia INTEGER, num INTEGER, ws TEXT, duration INTEGER, r1 INTEGER, r2 INTEGER, not_before INTEGER, deadline INTEGER, mark TEXT, code TEXT, held INTEGER, nop INTEGER, status TEXT, latest INTEGER, waiting INTEGER | app, ia, num |
// | dependency | papp TEXT, pia INTEGER, pnum INTEGER, sapp TEXT, sia INTEGER, snum INTEGER | papp, pia, pnum, sapp, sia, snum |
// | need | app TEXT, ia INTEGER, num INTEGER, resource TEXT, mode TEXT, keep TEXT | app, ia, num, resource |
// | receipt | tracker TEXT, number INTEGER, request BLOB, reply TEXT | tracker |
// | quantity | resource TEXT, quantity INTEGER | resource |
// | amount | app TEXT, ia INTEGER, num INTEGER, resource TEXT, amount INTEGER | app, ia, num, resource |
//
// All tables are STRICT, and each column is NOT NULL. Moments are minutes. The values of a row are the parameters of a
// text, in the order of the columns. A text that reads gives the rowid and then the columns, by rising rowids.

/// Which tables a database has.
#[derive(Clone, Copy)]
pub enum Version {
    /// The nine from `meta` to `receipt`.
    First,
    /// These, and `quantity` and `amount`.
    Second,
}

/// Makes the table `meta`. Whether a plan is loaded, and the clock.
pub const CREATE_META: &str =
    "CREATE TABLE meta (id INTEGER NOT NULL, version INTEGER NOT NULL, loaded INTEGER NOT NULL, \
     clock INTEGER NOT NULL, PRIMARY KEY (id)) STRICT";

/// Puts a row into `meta`, in place of the one that has its key.
pub const PUT_META: &str =
    "INSERT INTO meta (id, version, loaded, clock) VALUES (?1, ?2, ?3, ?4) ON CONFLICT (id) \
     DO UPDATE SET version = excluded.version, loaded = excluded.loaded, clock = excluded.clock";

/// Reads the rows of `meta`.
pub const READ_META: &str = "SELECT rowid, id, version, loaded, clock FROM meta ORDER BY rowid";

/// Makes the table `workstation`. Workstations, each with its reporting attribute.
pub const CREATE_WORKSTATION: &str =
    "CREATE TABLE workstation (name TEXT NOT NULL, attr TEXT NOT NULL, PRIMARY KEY (name)) STRICT";

/// Puts a row into `workstation`, in place of the one that has its key.
pub const PUT_WORKSTATION: &str =
    "INSERT INTO workstation (name, attr) VALUES (?1, ?2) ON CONFLICT (name) \
     DO UPDATE SET attr = excluded.attr";

/// Reads the rows of `workstation`.
pub const READ_WORKSTATION: &str = "SELECT rowid, name, attr FROM workstation ORDER BY rowid";

/// Makes the table `interval`. Open intervals of workstations.
pub const CREATE_INTERVAL: &str =
    "CREATE TABLE interval (ws TEXT NOT NULL, start INTEGER NOT NULL, stop INTEGER NOT NULL, \
     servers INTEGER NOT NULL, r1 INTEGER NOT NULL, r2 INTEGER NOT NULL, PRIMARY KEY (ws, \
     start)) STRICT";

/// Puts a row into `interval`, in place of the one that has its key.
pub const PUT_INTERVAL: &str =
    "INSERT INTO interval (ws, start, stop, servers, r1, r2) VALUES (?1, ?2, ?3, ?4, ?5, ?6) \
     ON CONFLICT (ws, start) DO UPDATE SET stop = excluded.stop, servers = excluded.servers, \
     r1 = excluded.r1, r2 = excluded.r2";

/// Reads the rows of `interval`.
pub const READ_INTERVAL: &str =
    "SELECT rowid, ws, start, stop, servers, r1, r2 FROM interval ORDER BY rowid";

/// Takes the row out of `interval` that has this key.
pub const DROP_INTERVAL: &str = "DELETE FROM interval WHERE ws = ?1 AND start = ?2";

/// Makes the table `resource`. Special resources, and whether each is available.
pub const CREATE_RESOURCE: &str =
    "CREATE TABLE resource (name TEXT NOT NULL, available INTEGER NOT NULL, \
     PRIMARY KEY (name)) STRICT";

/// Puts a row into `resource`, in place of the one that has its key.
pub const PUT_RESOURCE: &str =
    "INSERT INTO resource (name, available) VALUES (?1, ?2) ON CONFLICT (name) \
     DO UPDATE SET available = excluded.available";

/// Reads the rows of `resource`.
pub const READ_RESOURCE: &str = "SELECT rowid, name, available FROM resource ORDER BY rowid";

/// Makes the table `occurrence`. Occurrences of applications, each with its status.
pub const CREATE_OCCURRENCE: &str =
    "CREATE TABLE occurrence (app TEXT NOT NULL, ia INTEGER NOT NULL, priority INTEGER NOT NULL, \
     deadline INTEGER NOT NULL, status TEXT NOT NULL, PRIMARY KEY (app, ia)) STRICT";

/// Puts a row into `occurrence`, in place of the one that has its key.
pub const PUT_OCCURRENCE: &str =
    "INSERT INTO occurrence (app, ia, priority, deadline, status) VALUES (?1, ?2, ?3, ?4, ?5) \
     ON CONFLICT (app, ia) DO UPDATE SET priority = excluded.priority, \
     deadline = excluded.deadline, status = excluded.status";

/// Reads the rows of `occurrence`.
pub const READ_OCCURRENCE: &str =
    "SELECT rowid, app, ia, priority, deadline, status FROM occurrence ORDER BY rowid";

/// Makes the table `operation`. Operations, each with its mark, its status and what is read off the plan for it.
pub const CREATE_OPERATION: &str =
    "CREATE TABLE operation (app TEXT NOT NULL, ia INTEGER NOT NULL, num INTEGER NOT NULL, \
     ws TEXT NOT NULL, duration INTEGER NOT NULL, r1 INTEGER NOT NULL, r2 INTEGER NOT NULL, \
     not_before INTEGER NOT NULL, deadline INTEGER NOT NULL, mark TEXT NOT NULL, \
     code TEXT NOT NULL, held INTEGER NOT NULL, nop INTEGER NOT NULL, status TEXT NOT NULL, \
     latest INTEGER NOT NULL, waiting INTEGER NOT NULL, PRIMARY KEY (app, ia, num)) STRICT";

/// Puts a row into `operation`, in place of the one that has its key.
pub const PUT_OPERATION: &str =
    "INSERT INTO operation (app, ia, num, ws, duration, r1, r2, not_before, deadline, mark, \
     code, held, nop, status, latest, waiting) VALUES (?1, ?2, ?3, ?4, ?5, ?6, ?7, ?8, ?9, ?10, \
     ?11, ?12, ?13, ?14, ?15, ?16) ON CONFLICT (app, ia, num) DO UPDATE SET ws = excluded.ws, \
     duration = excluded.duration, r1 = excluded.r1, r2 = excluded.r2, \
     not_before = excluded.not_before, deadline = excluded.deadline, mark = excluded.mark, \
     code = excluded.code, held = excluded.held, nop = excluded.nop, status = excluded.status, \
     latest = excluded.latest, waiting = excluded.waiting";

/// Reads the rows of `operation`.
pub const READ_OPERATION: &str =
    "SELECT rowid, app, ia, num, ws, duration, r1, r2, not_before, deadline, mark, code, held, \
     nop, status, latest, waiting FROM operation ORDER BY rowid";

/// Makes the table `dependency`. Pairs of operations of which the first precedes the second.
pub const CREATE_DEPENDENCY: &str =
    "CREATE TABLE dependency (papp TEXT NOT NULL, pia INTEGER NOT NULL, pnum INTEGER NOT NULL, \
     sapp TEXT NOT NULL, sia INTEGER NOT NULL, snum INTEGER NOT NULL, PRIMARY KEY (papp, pia, \
     pnum, sapp, sia, snum)) STRICT";

/// Puts a row into `dependency`, unless it is there.
pub const PUT_DEPENDENCY: &str =
    "INSERT INTO dependency (papp, pia, pnum, sapp, sia, snum) VALUES (?1, ?2, ?3, ?4, ?5, ?6) \
     ON CONFLICT (papp, pia, pnum, sapp, sia, snum) DO NOTHING";

/// Reads the rows of `dependency`.
pub const READ_DEPENDENCY: &str =
    "SELECT rowid, papp, pia, pnum, sapp, sia, snum FROM dependency ORDER BY rowid";

/// Makes the table `need`. Special resources that operations need.
pub const CREATE_NEED: &str =
    "CREATE TABLE need (app TEXT NOT NULL, ia INTEGER NOT NULL, num INTEGER NOT NULL, \
     resource TEXT NOT NULL, mode TEXT NOT NULL, keep TEXT NOT NULL, PRIMARY KEY (app, ia, num, \
     resource)) STRICT";

/// Puts a row into `need`, in place of the one that has its key.
pub const PUT_NEED: &str =
    "INSERT INTO need (app, ia, num, resource, mode, keep) VALUES (?1, ?2, ?3, ?4, ?5, ?6) \
     ON CONFLICT (app, ia, num, resource) DO UPDATE SET mode = excluded.mode, \
     keep = excluded.keep";

/// Reads the rows of `need`.
pub const READ_NEED: &str =
    "SELECT rowid, app, ia, num, resource, mode, keep FROM need ORDER BY rowid";

/// Makes the table `receipt`. The last request of each tracker that was accepted, and its reply.
pub const CREATE_RECEIPT: &str =
    "CREATE TABLE receipt (tracker TEXT NOT NULL, number INTEGER NOT NULL, \
     request BLOB NOT NULL, reply TEXT NOT NULL, PRIMARY KEY (tracker)) STRICT";

/// Puts a row into `receipt`, in place of the one that has its key.
pub const PUT_RECEIPT: &str =
    "INSERT INTO receipt (tracker, number, request, reply) VALUES (?1, ?2, ?3, ?4) \
     ON CONFLICT (tracker) DO UPDATE SET number = excluded.number, request = excluded.request, \
     reply = excluded.reply";

/// Reads the rows of `receipt`.
pub const READ_RECEIPT: &str =
    "SELECT rowid, tracker, number, request, reply FROM receipt ORDER BY rowid";

/// Makes the table `quantity`. How much there is of special resources, where that isn't as much as can be.
pub const CREATE_QUANTITY: &str =
    "CREATE TABLE quantity (resource TEXT NOT NULL, quantity INTEGER NOT NULL, \
     PRIMARY KEY (resource)) STRICT";

/// Puts a row into `quantity`, in place of the one that has its key.
pub const PUT_QUANTITY: &str =
    "INSERT INTO quantity (resource, quantity) VALUES (?1, ?2) ON CONFLICT (resource) \
     DO UPDATE SET quantity = excluded.quantity";

/// Reads the rows of `quantity`.
pub const READ_QUANTITY: &str = "SELECT rowid, resource, quantity FROM quantity ORDER BY rowid";

/// Makes the table `amount`. How much operations need of special resources that they share, where that isn't 1.
pub const CREATE_AMOUNT: &str =
    "CREATE TABLE amount (app TEXT NOT NULL, ia INTEGER NOT NULL, num INTEGER NOT NULL, \
     resource TEXT NOT NULL, amount INTEGER NOT NULL, PRIMARY KEY (app, ia, num, \
     resource)) STRICT";

/// Puts a row into `amount`, in place of the one that has its key.
pub const PUT_AMOUNT: &str =
    "INSERT INTO amount (app, ia, num, resource, amount) VALUES (?1, ?2, ?3, ?4, ?5) \
     ON CONFLICT (app, ia, num, resource) DO UPDATE SET amount = excluded.amount";

/// Reads the rows of `amount`.
pub const READ_AMOUNT: &str =
    "SELECT rowid, app, ia, num, resource, amount FROM amount ORDER BY rowid";

/// Takes the row out of `occurrence` that has this key.
pub const DROP_OCCURRENCE: &str = "DELETE FROM occurrence WHERE app = ?1 AND ia = ?2";

/// Takes the row out of `operation` that has this key.
pub const DROP_OPERATION: &str = "DELETE FROM operation WHERE app = ?1 AND ia = ?2 AND num = ?3";

/// Takes the row out of `dependency` that has this key.
pub const DROP_DEPENDENCY: &str =
    "DELETE FROM dependency WHERE papp = ?1 AND pia = ?2 AND pnum = ?3 AND sapp = ?4 \
     AND sia = ?5 AND snum = ?6";

/// Takes the row out of `need` that has this key.
pub const DROP_NEED: &str =
    "DELETE FROM need WHERE app = ?1 AND ia = ?2 AND num = ?3 AND resource = ?4";

/// Takes the row out of `amount` that has this key.
pub const DROP_AMOUNT: &str =
    "DELETE FROM amount WHERE app = ?1 AND ia = ?2 AND num = ?3 AND resource = ?4";
