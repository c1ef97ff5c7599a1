// A desk's tables of the first version, of nine tables, as SQL texts; written by hand, and by no program of the desk.
use sqlite::{Alter, Connection};

// Makes the nine tables.
const FIRST_TABLES: &str =
    "CREATE TABLE meta (id INTEGER NOT NULL, version INTEGER NOT NULL, loaded INTEGER NOT NULL, clock INTEGER NOT NULL, PRIMARY KEY (id)) STRICT;
CREATE TABLE workstation (name TEXT NOT NULL, attr TEXT NOT NULL, PRIMARY KEY (name)) STRICT;
CREATE TABLE interval (ws TEXT NOT NULL, start INTEGER NOT NULL, stop INTEGER NOT NULL, servers INTEGER NOT NULL, r1 INTEGER NOT NULL, r2 INTEGER NOT NULL, PRIMARY KEY (ws, start)) STRICT;
CREATE TABLE resource (name TEXT NOT NULL, available INTEGER NOT NULL, PRIMARY KEY (name)) STRICT;
CREATE TABLE occurrence (app TEXT NOT NULL, ia INTEGER NOT NULL, priority INTEGER NOT NULL, deadline INTEGER NOT NULL, status TEXT NOT NULL, PRIMARY KEY (app, ia)) STRICT;
CREATE TABLE operation (app TEXT NOT NULL, ia INTEGER NOT NULL, num INTEGER NOT NULL, ws TEXT NOT NULL, duration INTEGER NOT NULL, r1 INTEGER NOT NULL, r2 INTEGER NOT NULL, not_before INTEGER NOT NULL, deadline INTEGER NOT NULL, mark TEXT NOT NULL, code TEXT NOT NULL, held INTEGER NOT NULL, nop INTEGER NOT NULL, status TEXT NOT NULL, latest INTEGER NOT NULL, waiting INTEGER NOT NULL, PRIMARY KEY (app, ia, num)) STRICT;
CREATE TABLE dependency (papp TEXT NOT NULL, pia INTEGER NOT NULL, pnum INTEGER NOT NULL, sapp TEXT NOT NULL, sia INTEGER NOT NULL, snum INTEGER NOT NULL, PRIMARY KEY (papp, pia, pnum, sapp, sia, snum)) STRICT;
CREATE TABLE need (app TEXT NOT NULL, ia INTEGER NOT NULL, num INTEGER NOT NULL, resource TEXT NOT NULL, mode TEXT NOT NULL, keep TEXT NOT NULL, PRIMARY KEY (app, ia, num, resource)) STRICT;
CREATE TABLE receipt (tracker TEXT NOT NULL, number INTEGER NOT NULL, request BLOB NOT NULL, reply TEXT NOT NULL, PRIMARY KEY (tracker)) STRICT;
";

// A tracker's receipt.
const RECEIPT: &str = "INSERT INTO receipt VALUES ('T1', 4, x'78', 'PAYROLL/2024-03-01T22:00/020');
";

// The rows of the worked night, but a receipt, when the second run has the file and the bills have come in, at 22:45.
const FIRST_NIGHT: &str = "INSERT INTO meta VALUES (1, 1, 1, 27437685);
INSERT INTO workstation VALUES ('CPU1', 'A');
INSERT INTO workstation VALUES ('SETP', 'S');
INSERT INTO workstation VALUES ('PRT1', 'C');
INSERT INTO workstation VALUES ('DUMM', 'N');
INSERT INTO interval VALUES ('CPU1', 27437640, 27438120, 2, 3, 0);
INSERT INTO interval VALUES ('SETP', 27437640, 27437880, 1, 0, 0);
INSERT INTO resource VALUES ('CUSTFILE', 1);
INSERT INTO occurrence VALUES ('PAYROLL', 27437640, 5, 27438060, 'S');
INSERT INTO occurrence VALUES ('BILLING', 27437640, 5, 27437940, 'W');
INSERT INTO operation VALUES ('PAYROLL', 27437640, 5, 'SETP', 10, 0, 0, 0, 27438060, 'done', '', 0, 0, 'C', 27437939, 0);
INSERT INTO operation VALUES ('PAYROLL', 27437640, 10, 'CPU1', 30, 0, 0, 0, 27438060, 'done', '', 0, 0, 'C', 27437949, 0);
INSERT INTO operation VALUES ('PAYROLL', 27437640, 20, 'CPU1', 60, 0, 0, 0, 27438060, 'named', '', 0, 0, 'S', 27437979, 0);
INSERT INTO operation VALUES ('PAYROLL', 27437640, 30, 'DUMM', 1, 0, 0, 0, 27438060, 'none', '', 0, 0, 'W', 27438039, 1);
INSERT INTO operation VALUES ('PAYROLL', 27437640, 40, 'PRT1', 20, 0, 0, 0, 27438060, 'none', '', 0, 0, 'W', 27438040, 1);
INSERT INTO operation VALUES ('BILLING', 27437640, 10, 'CPU1', 30, 0, 0, 0, 27437940, 'none', '', 0, 0, 'A', 27437910, 0);
INSERT INTO dependency VALUES ('PAYROLL', 27437640, 5, 'PAYROLL', 27437640, 10);
INSERT INTO dependency VALUES ('PAYROLL', 27437640, 10, 'PAYROLL', 27437640, 20);
INSERT INTO dependency VALUES ('PAYROLL', 27437640, 20, 'PAYROLL', 27437640, 30);
INSERT INTO dependency VALUES ('PAYROLL', 27437640, 30, 'PAYROLL', 27437640, 40);
INSERT INTO need VALUES ('PAYROLL', 27437640, 20, 'CUSTFILE', 'X', 'K');
INSERT INTO need VALUES ('BILLING', 27437640, 10, 'CUSTFILE', 'S', 'F');
";

/// Makes the tables of the first version, with the night and a receipt; whether that is done.
pub fn makes_first_night<S: Alter>(conn: &mut Connection<S>) -> bool {
    conn.execute_batch(FIRST_TABLES).is_ok()
        && conn.execute_batch(FIRST_NIGHT).is_ok()
        && conn.execute_batch(RECEIPT).is_ok()
}
