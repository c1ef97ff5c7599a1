// The parts of the texts that are loaded, and of those that are added.

/// Each part has a line with its name and what it holds, and then its records.
pub const PARTS: &str = "STATIONS: workstations of all four attributes
W,CPU1,A,,,,,,,
W,SETP,S,,,,,,,
W,PRT1,C,,,,,,,
W,DUMM,N,,,,,,,
I,CPU1,2024-03-01T22:00,2024-03-02T06:00,2,3,0,,,
I,SETP,2024-03-01T22:00,2024-03-02T02:00,1,0,0,,,

RUNS: a set-up that is reported, two automatic runs, and a check that isn't reported
O,PAYROLL,2024-03-01T22:00,5,2024-03-02T05:00,,,,,
P,PAYROLL,2024-03-01T22:00,5,SETP,10,0,0,,
P,PAYROLL,2024-03-01T22:00,10,CPU1,30,0,0,,
P,PAYROLL,2024-03-01T22:00,20,CPU1,60,0,0,,
P,PAYROLL,2024-03-01T22:00,30,DUMM,1,0,0,,

PRINTING: the last operation, of which the completion is reported
P,PAYROLL,2024-03-01T22:00,40,PRT1,20,0,0,,

CHAIN: the runs one after another
D,PAYROLL,2024-03-01T22:00,5,PAYROLL,2024-03-01T22:00,10,,,
D,PAYROLL,2024-03-01T22:00,10,PAYROLL,2024-03-01T22:00,20,,,
D,PAYROLL,2024-03-01T22:00,20,PAYROLL,2024-03-01T22:00,30,,,

LAST: the printing after them
D,PAYROLL,2024-03-01T22:00,30,PAYROLL,2024-03-01T22:00,40,,,

FILE: a file
X,CUSTFILE,Y,,,,,,,

KEEPS: the second run needs the file for itself, and keeps it on error
N,PAYROLL,2024-03-01T22:00,20,CUSTFILE,X,K,,,

SET_UPS: an open workstation where an operator reports starts, with 20 servers
W,SETP,S,,,,,,,
I,SETP,2024-03-01T22:00,2024-03-02T06:00,20,0,0,,,

BILLS: bills, for which the file is shared
O,BILLING,2024-03-01T22:00,5,2024-03-02T03:00,,,,,
P,BILLING,2024-03-01T22:00,10,CPU1,30,0,0,,
N,BILLING,2024-03-01T22:00,10,CUSTFILE,S,F,,,

BILLS_LAST: the bills wait for the printing
D,PAYROLL,2024-03-01T22:00,40,BILLING,2024-03-01T22:00,10,,,

OPEN: an automatic workstation with two servers, open from 22:00 to 06:00
W,CPU1,A,,,,,,,
I,CPU1,2024-03-01T22:00,2024-03-02T06:00,2,3,0,,,

HALF_HOURS: an operation of half an hour of each of three occurrences
P,AAA,2024-03-01T22:00,10,CPU1,30,0,0,,
P,BBB,2024-03-01T22:00,10,CPU1,30,0,0,,
P,CCC,2024-03-01T22:00,10,CPU1,30,0,0,,

DAILY: one occurrence
O,DAILY,2024-03-01T22:00,5,2024-03-02T05:00,,,,,

TWO_RUNS: two operations, the first before the second
P,DAILY,2024-03-01T22:00,10,CPU1,30,0,0,,
P,DAILY,2024-03-01T22:00,20,CPU1,60,0,0,,
D,DAILY,2024-03-01T22:00,10,DAILY,2024-03-01T22:00,20,,,

DRIVES: an automatic workstation with nine servers, and two tape drives
W,CPU1,A,,,,,,,
I,CPU1,2024-03-01T22:00,2024-03-02T06:00,9,0,0,,,
X,TAPE,Y,2,,,,,,

IN_TURN: three occurrences, of which the first has to end first, and the last last
O,AAA,2024-03-01T22:00,5,2024-03-02T03:00,,,,,
O,BBB,2024-03-01T22:00,5,2024-03-02T04:00,,,,,
O,CCC,2024-03-01T22:00,5,2024-03-02T05:00,,,,,

ONE_TWO_ONE: the second of the three needs both drives, the others one each
N,AAA,2024-03-01T22:00,10,TAPE,S,F,,,
N,BBB,2024-03-01T22:00,10,TAPE,S,F,2,,
N,CCC,2024-03-01T22:00,10,TAPE,S,F,1,,

URGENT: one more occurrence, which has to end before those three
O,DDD,2024-03-01T22:00,5,2024-03-02T02:30,,,,,
P,DDD,2024-03-01T22:00,10,CPU1,30,0,0,,

TWO_DRIVES: it needs both drives
N,DDD,2024-03-01T22:00,10,TAPE,S,F,2,,

THREE_DRIVES: it needs three
N,DDD,2024-03-01T22:00,10,TAPE,S,F,3,,

NEXT_NIGHT: the night of the next day, of one automatic run
O,PAYROLL,2024-03-02T22:00,5,2024-03-03T05:00,,,,,
P,PAYROLL,2024-03-02T22:00,10,CPU1,30,0,0,,

AFTER_THE_OLD: it comes after the printing of the night before
D,PAYROLL,2024-03-01T22:00,40,PAYROLL,2024-03-02T22:00,10,,,";
