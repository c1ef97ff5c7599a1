// Nights in want of memory.

/// Six nights, one after another.
pub const GROWTHS: &str = "RERUN: a night from its load to a rerun
21:00 load STATIONS RUNS PRINTING CHAIN LAST FILE KEEPS | names -
21:00 load STATIONS RUNS PRINTING CHAIN LAST FILE KEEPS | refused 4
22:00 started 5 | names -
22:10 ended 5 | names 10
22:20 interrupted 10 | refused 10
22:40 ended 10 | names 20
22:45 add BILLS | names -
22:50 delete PAYROLL | refused 17
23:00 error 20 S0C7 | names -
23:05 rerun 20 | names BILLING.10

STARTED: a named operation is reported
21:00 load STATIONS RUNS PRINTING CHAIN LAST FILE KEEPS | names -
22:00 started 5 | names -
22:10 ended 5 | names 10
22:11 started 10 | names -
22:40 ended 10 | names 20

OVER: the night ends, and the next comes in
21:00 load STATIONS RUNS PRINTING CHAIN LAST FILE KEEPS | names -
22:00 started 5 | names -
22:10 ended 5 | names 10
22:40 ended 10 | names 20
22:45 add BILLS | names -
23:40 ended 20 | names BILLING.10
23:50 ended 40 | names -
23:55 extend NEXT_NIGHT AFTER_THE_OLD | refused 5
23:55 extend NEXT_NIGHT | names PAYROLL/2024-03-02T22:00/010

DELETED: bills come in, and what they wait for is deleted
21:00 load STATIONS RUNS PRINTING CHAIN LAST FILE KEEPS | names -
21:00 add BILLS BILLS_LAST | names -
21:00 delete PAYROLL | names -
21:00 delete PAYROLL | refused 9
21:00 add RUNS PRINTING CHAIN LAST KEEPS | refused 18

DEPENDS: dependencies come in
21:00 load STATIONS RUNS PRINTING CHAIN LAST FILE KEEPS | names -
21:00 depend 5 on 40 | refused 19
21:00 add BILLS | names -
21:00 depend BILLING.10 on 40 | names -

TAPES: needs of tape drives
22:00 load DRIVES IN_TURN HALF_HOURS ONE_TWO_ONE | names AAA.10 CCC.10
22:05 add URGENT THREE_DRIVES | refused 20
22:05 add URGENT TWO_DRIVES | names -
22:20 ended CCC.10 | names -";
