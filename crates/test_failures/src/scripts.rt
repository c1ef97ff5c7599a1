// The scripts. Each turn is a line:
//
//     create                          a desk is made over a database without tables
//     first                           the tables of the first version are made there, with a night in which bills have come in
//     close                           the desk is closed
//     open                            it is opened
//     sql TEXT                        the tables are changed, where no desk is open
//     BODY | names KEY ..             what an operator asks of the desk, and the operations that are named, or the refusal
//     BODY | refused NAME
//     PATH BODY | STATUS | REPLY      what is sent over HTTP, and its reply
//     GET PATH | STATUS | REPLY
//     LOOK PATH | STATUS | TEXT       what a desk that is served for good is asked to show, and its text: `~` parts lines
//     KEY MARK STATUS                 how an operation stands
//     reader                          the night's start is sent, cut after each byte, where its reader fails, or its input ends
//     writer                          it is sent, and its reply's writer fails at each call
//     report                          the writer of the report of what is ready on CPU1 fails after twenty bytes
//
// NIGHT stands for the body that loads the night at 21:00. In want of memory a turn behind `+ ` is made with memory.

/// What is stopped: the tables are made, a night is loaded, a tracker reports four times, and the plan is extended twice. Each
/// time an occurrence comes in that is complete at once, as its only operation reports nothing and comes after one that is
/// complete; the second time the first of them leaves, with its dependency and its need of two. A turn that an operator asks may
/// be asked again, once it is carried out: the load is refused then, and what came in leaves and comes in again.
pub const SCRIPT: &str = r#"create
/operator NIGHT | 200 OK | {"named":[]}
/report {"tracker":"T1","number":1,"at":"2024-03-01T22:00","do":"started","op":"PAYROLL/2024-03-01T22:00/005"} | 200 OK | {"named":[]}
/report {"tracker":"T1","number":2,"at":"2024-03-01T22:10","do":"ended","op":"PAYROLL/2024-03-01T22:00/005"} | 200 OK | {"named":["PAYROLL/2024-03-01T22:00/010"]}
/report {"tracker":"T1","number":3,"at":"2024-03-01T22:11","do":"started","op":"PAYROLL/2024-03-01T22:00/010"} | 200 OK | {"named":[]}
/report {"tracker":"T1","number":4,"at":"2024-03-01T22:40","do":"ended","op":"PAYROLL/2024-03-01T22:00/010"} | 200 OK | {"named":["PAYROLL/2024-03-01T22:00/020"]}
/operator {"at":"2024-03-01T22:45","do":"extend","records":"O,CHECKS,2024-03-01T22:00,5,2024-03-02T05:00,,,,,\nP,CHECKS,2024-03-01T22:00,90,DUMM,1,0,0,,\nD,PAYROLL,2024-03-01T22:00,5,CHECKS,2024-03-01T22:00,90,,,\nN,CHECKS,2024-03-01T22:00,90,CUSTFILE,S,F,2,,\n"} | 200 OK | {"named":[]}
/operator {"at":"2024-03-01T22:50","do":"extend","records":"O,AUDITS,2024-03-01T22:00,5,2024-03-02T05:00,,,,,\nP,AUDITS,2024-03-01T22:00,90,DUMM,1,0,0,,\nD,PAYROLL,2024-03-01T22:00,5,AUDITS,2024-03-01T22:00,90,,,\nN,AUDITS,2024-03-01T22:00,90,CUSTFILE,S,F,2,,\n"} | 200 OK | {"named":[]}"#;

/// Tables of the first version are opened, and then the second run ends, and the printing.
pub const OPENING: &str = r#"open
/report {"tracker":"T1","number":5,"at":"2024-03-01T23:40","do":"ended","op":"PAYROLL/2024-03-01T22:00/020"} | 200 OK | {"named":["BILLING/2024-03-01T22:00/010"]}
/report {"tracker":"T1","number":6,"at":"2024-03-01T23:50","do":"ended","op":"PAYROLL/2024-03-01T22:00/040"} | 200 OK | {"named":[]}"#;

/// A request of each kind, and one more report of a start, each accepted once those before it are carried out: a load, a tick,
/// what operators command while all wait, a tracker's reports with a rerun among them, and what comes into the plan and leaves
/// it.
pub const KINDS: &str = r#"/operator NIGHT | 200 OK | {"named":[]}
/operator {"at":"2024-03-01T21:30","do":"tick"} | 200 OK | {"named":[]}
/operator {"at":"2024-03-01T21:31","do":"hold","op":"PAYROLL/2024-03-01T22:00/040"} | 200 OK | {"named":[]}
/operator {"at":"2024-03-01T21:32","do":"release","op":"PAYROLL/2024-03-01T22:00/040"} | 200 OK | {"named":[]}
/operator {"at":"2024-03-01T21:33","do":"nop","op":"PAYROLL/2024-03-01T22:00/020"} | 200 OK | {"named":[]}
/operator {"at":"2024-03-01T21:34","do":"unnop","op":"PAYROLL/2024-03-01T22:00/020"} | 200 OK | {"named":[]}
/operator {"at":"2024-03-01T21:35","do":"available","resource":"CUSTFILE","value":false} | 200 OK | {"named":[]}
/operator {"at":"2024-03-01T21:36","do":"intervals","ws":"SETP","intervals":[["2024-03-01T22:00","2024-03-02T02:00",2,0,0]]} | 200 OK | {"named":[]}
/report {"tracker":"T1","number":1,"at":"2024-03-01T22:00","do":"started","op":"PAYROLL/2024-03-01T22:00/005"} | 200 OK | {"named":[]}
/report {"tracker":"T1","number":2,"at":"2024-03-01T22:02","do":"interrupted","op":"PAYROLL/2024-03-01T22:00/005"} | 200 OK | {"named":[]}
/operator {"at":"2024-03-01T22:03","do":"rerun","op":"PAYROLL/2024-03-01T22:00/005"} | 200 OK | {"named":[]}
/report {"tracker":"T1","number":3,"at":"2024-03-01T22:04","do":"started","op":"PAYROLL/2024-03-01T22:00/005"} | 200 OK | {"named":[]}
/report {"tracker":"T1","number":4,"at":"2024-03-01T22:05","do":"unknown","op":"PAYROLL/2024-03-01T22:00/005"} | 200 OK | {"named":[]}
/report {"tracker":"T1","number":5,"at":"2024-03-01T22:10","do":"ended","op":"PAYROLL/2024-03-01T22:00/005"} | 200 OK | {"named":["PAYROLL/2024-03-01T22:00/010"]}
/report {"tracker":"T1","number":6,"at":"2024-03-01T22:20","do":"error","op":"PAYROLL/2024-03-01T22:00/010","code":"S0C7"} | 200 OK | {"named":[]}
/operator {"at":"2024-03-01T22:25","do":"complete","op":"PAYROLL/2024-03-01T22:00/010"} | 200 OK | {"named":[]}
/operator {"at":"2024-03-01T22:40","do":"add","records":"O,EXTRA,2024-03-01T22:00,5,2024-03-02T05:00,,,,,\nP,EXTRA,2024-03-01T22:00,10,PRT1,20,0,0,,\n"} | 200 OK | {"named":[]}
/operator {"at":"2024-03-01T22:41","do":"depend","from":"PAYROLL/2024-03-01T22:00/040","to":"EXTRA/2024-03-01T22:00/010"} | 200 OK | {"named":[]}
/operator {"at":"2024-03-01T22:42","do":"delete","occ":"EXTRA/2024-03-01T22:00"} | 200 OK | {"named":[]}
/operator {"at":"2024-03-01T22:50","do":"extend","records":"O,AUDITS,2024-03-01T22:00,5,2024-03-02T05:00,,,,,\nP,AUDITS,2024-03-01T22:00,10,PRT1,20,0,0,,\nN,AUDITS,2024-03-01T22:00,10,CUSTFILE,S,F,2,,\n"} | 200 OK | {"named":[]}"#;

/// The second run fails, when the bills are in that wait for its file, and is to run again: the bills go first.
pub const FAILED_RUN: &str = r#"create
NIGHT | names
NIGHT | refused Loaded
{"at":"2024-03-01T22:00","do":"started","op":"PAYROLL/2024-03-01T22:00/005"} | names
{"at":"2024-03-01T22:10","do":"ended","op":"PAYROLL/2024-03-01T22:00/005"} | names PAYROLL/2024-03-01T22:00/010
{"at":"2024-03-01T22:20","do":"interrupted","op":"PAYROLL/2024-03-01T22:00/010"} | refused WrongWorkstation
{"at":"2024-03-01T22:40","do":"ended","op":"PAYROLL/2024-03-01T22:00/010"} | names PAYROLL/2024-03-01T22:00/020
{"at":"2024-03-01T22:45","do":"add","records":"O,BILLING,2024-03-01T22:00,5,2024-03-02T03:00,,,,,\nP,BILLING,2024-03-01T22:00,10,CPU1,30,0,0,,\nN,BILLING,2024-03-01T22:00,10,CUSTFILE,S,F,,,\n"} | names
{"at":"2024-03-01T22:50","do":"delete","occ":"PAYROLL/2024-03-01T22:00"} | refused Running
{"at":"2024-03-01T23:00","do":"error","op":"PAYROLL/2024-03-01T22:00/020","code":"S0C7"} | names
{"at":"2024-03-01T23:05","do":"rerun","op":"PAYROLL/2024-03-01T22:00/020"} | names BILLING/2024-03-01T22:00/010
close
open"#;

/// The second run ends when the bills are in, and then the printing; and the next night comes in when this one leaves.
pub const WHOLE_NIGHT: &str = r#"+ create
+ NIGHT | names
+ {"at":"2024-03-01T22:00","do":"started","op":"PAYROLL/2024-03-01T22:00/005"} | names
+ {"at":"2024-03-01T22:10","do":"ended","op":"PAYROLL/2024-03-01T22:00/005"} | names PAYROLL/2024-03-01T22:00/010
+ {"at":"2024-03-01T22:40","do":"ended","op":"PAYROLL/2024-03-01T22:00/010"} | names PAYROLL/2024-03-01T22:00/020
+ {"at":"2024-03-01T22:45","do":"add","records":"O,BILLING,2024-03-01T22:00,5,2024-03-02T03:00,,,,,\nP,BILLING,2024-03-01T22:00,10,CPU1,30,0,0,,\nN,BILLING,2024-03-01T22:00,10,CUSTFILE,S,F,,,\n"} | names
{"at":"2024-03-01T23:40","do":"ended","op":"PAYROLL/2024-03-01T22:00/020"} | names BILLING/2024-03-01T22:00/010
{"at":"2024-03-01T23:50","do":"ended","op":"PAYROLL/2024-03-01T22:00/040"} | names
{"at":"2024-03-01T23:55","do":"extend","records":"O,PAYROLL,2024-03-02T22:00,5,2024-03-03T05:00,,,,,\nP,PAYROLL,2024-03-02T22:00,10,CPU1,30,0,0,,\nD,PAYROLL,2024-03-01T22:00,40,PAYROLL,2024-03-02T22:00,10,,,\n"} | refused UnknownOperation
{"at":"2024-03-01T23:55","do":"extend","records":"O,PAYROLL,2024-03-02T22:00,5,2024-03-03T05:00,,,,,\nP,PAYROLL,2024-03-02T22:00,10,CPU1,30,0,0,,\n"} | names PAYROLL/2024-03-02T22:00/010"#;

/// The bills are to come after the printing: by the pair with which they come in, and by one that is added. The night is deleted
/// then, and doesn't come in again.
pub const DELETED_NIGHT: &str = r#"+ create
+ NIGHT | names
{"at":"2024-03-01T21:00","do":"add","records":"O,BILLING,2024-03-01T22:00,5,2024-03-02T03:00,,,,,\nP,BILLING,2024-03-01T22:00,10,CPU1,30,0,0,,\nP,BILLING,2024-03-01T22:00,20,CPU1,30,0,0,,\nN,BILLING,2024-03-01T22:00,10,CUSTFILE,S,F,,,\nD,PAYROLL,2024-03-01T22:00,40,BILLING,2024-03-01T22:00,10,,,\n"} | names
{"at":"2024-03-01T21:00","do":"depend","from":"PAYROLL/2024-03-01T22:00/040","to":"BILLING/2024-03-01T22:00/020"} | names
{"at":"2024-03-01T21:00","do":"depend","from":"PAYROLL/2024-03-01T22:00/040","to":"PAYROLL/2024-03-01T22:00/005"} | refused Cycle
{"at":"2024-03-01T21:00","do":"delete","occ":"PAYROLL/2024-03-01T22:00"} | names
{"at":"2024-03-01T21:00","do":"delete","occ":"PAYROLL/2024-03-01T22:00"} | refused WrongStatus
{"at":"2024-03-01T21:00","do":"add","records":"O,PAYROLL,2024-03-01T22:00,5,2024-03-02T05:00,,,,,\nP,PAYROLL,2024-03-01T22:00,5,SETP,10,0,0,,\n"} | refused Duplicate"#;

/// A tracker reports its first two operations, repeats its last report, sends numbers that aren't the next, and repeats that
/// report once more when the desk was closed and opened.
pub const REPORTS: &str = r#"+ create
+ NIGHT | names
/report {"tracker":"T1","number":1,"at":"2024-03-01T22:00","do":"started","op":"PAYROLL/2024-03-01T22:00/005"} | 200 OK | {"named":[]}
/report {"tracker":"T1","number":2,"at":"2024-03-01T22:10","do":"ended","op":"PAYROLL/2024-03-01T22:00/005"} | 200 OK | {"named":["PAYROLL/2024-03-01T22:00/010"]}
/report {"tracker":"T1","number":3,"at":"2024-03-01T22:11","do":"started","op":"PAYROLL/2024-03-01T22:00/010"} | 200 OK | {"named":[]}
/report {"tracker":"T1","number":4,"at":"2024-03-01T22:40","do":"ended","op":"PAYROLL/2024-03-01T22:00/010"} | 200 OK | {"named":["PAYROLL/2024-03-01T22:00/020"]}
/report {"tracker":"T1","number":4,"at":"2024-03-01T22:40","do":"ended","op":"PAYROLL/2024-03-01T22:00/010"} | 200 OK | {"named":["PAYROLL/2024-03-01T22:00/020"]}
/report {"tracker":"T1","number":4,"at":"2024-03-01T22:40","do":"ended","op":"PAYROLL/2024-03-01T22:00/020"} | 409 Conflict | {"name":"Reused","refusal":24}
/report {"tracker":"T1","number":6,"at":"2024-03-01T22:41","do":"ended","op":"PAYROLL/2024-03-01T22:00/020"} | 409 Conflict | {"name":"Gap","refusal":23}
/report {"tracker":"T1","number":3,"at":"2024-03-01T22:11","do":"started","op":"PAYROLL/2024-03-01T22:00/010"} | 409 Conflict | {"name":"Old","refusal":22}
/report {"tracker":"T1","number":0,"at":"2024-03-01T22:41","do":"ended","op":"PAYROLL/2024-03-01T22:00/020"} | 409 Conflict | {"name":"Old","refusal":22}
close
open
/report {"tracker":"T1","number":4,"at":"2024-03-01T22:40","do":"ended","op":"PAYROLL/2024-03-01T22:00/010"} | 200 OK | {"named":["PAYROLL/2024-03-01T22:00/020"]}"#;

/// Tables of the first version are opened, and the night goes on in those of the second.
pub const FIRST_VERSION: &str = r#"+ first
open
{"at":"2024-03-01T23:40","do":"ended","op":"PAYROLL/2024-03-01T22:00/020"} | names BILLING/2024-03-01T22:00/010
close
open"#;

/// A report that is cut after each byte, and one whose reply's writer fails at each call: the start acts once, and is then
/// repeated.
pub const CONNECTIONS: &str = r#"+ create
+ NIGHT | names
+ reader
+ PAYROLL/2024-03-01T22:00/005 none A
+ writer
+ /report {"tracker":"T1","number":1,"at":"2024-03-01T22:00","do":"started","op":"PAYROLL/2024-03-01T22:00/005"} | 200 OK | {"named":[]}
+ PAYROLL/2024-03-01T22:00/005 running S"#;

/// What reports show after some turns, and why an operation doesn't go on: scripts, between which an empty line stands. The last
/// is of an operation at the first minute that a plan can name, one after it, and one of the night.
pub const LOOKS: &str = r#"+ create
+ NIGHT | names
LOOK /report/ready/SETP | 200 OK | READY SETP AT 2024-03-01T21:00~PAYROLL          2024-03-01T22:00   5 A - 5   10 2024-03-02T02:59~END 1
LOOK /report/ready/PRT1 | 200 OK | READY PRT1 AT 2024-03-01T21:00~END 0
+ {"at":"2024-03-01T21:10","do":"delete","occ":"PAYROLL/2024-03-01T22:00"} | names
LOOK /report/occurrences | 200 OK | OCCURRENCES AT 2024-03-01T21:10~PAYROLL          2024-03-01T22:00 5 D 2024-03-02T05:00     5     0~END 1
+ {"at":"2024-03-01T21:20","do":"extend","records":""} | names
LOOK /report/ready/SETP | 200 OK | READY SETP AT 2024-03-01T21:20~END 0
LOOK /report/occurrences | 200 OK | OCCURRENCES AT 2024-03-01T21:20~END 0
LOOK /report/errors | 200 OK | ERRORS AT 2024-03-01T21:20~END 0
LOOK /report/late | 200 OK | LATE AT 2024-03-01T21:20~END 0

+ create
+ NIGHT | names
+ {"at":"2024-03-01T21:30","do":"hold","op":"PAYROLL/2024-03-01T22:00/005"} | names
LOOK /report/ready/SETP | 200 OK | READY SETP AT 2024-03-01T21:30~PAYROLL          2024-03-01T22:00   5 A H 5   10 2024-03-02T02:59~END 1
+ {"at":"2024-03-01T21:40","do":"release","op":"PAYROLL/2024-03-01T22:00/005"} | names
+ {"at":"2024-03-01T22:00","do":"started","op":"PAYROLL/2024-03-01T22:00/005"} | names
+ {"at":"2024-03-01T22:10","do":"ended","op":"PAYROLL/2024-03-01T22:00/005"} | names PAYROLL/2024-03-01T22:00/010
+ {"at":"2024-03-01T22:40","do":"ended","op":"PAYROLL/2024-03-01T22:00/010"} | names PAYROLL/2024-03-01T22:00/020
+ {"at":"2024-03-01T22:45","do":"add","records":"O,BILLING,2024-03-01T22:00,5,2024-03-02T03:00,,,,,\nP,BILLING,2024-03-01T22:00,10,CPU1,30,0,0,,\nN,BILLING,2024-03-01T22:00,10,CUSTFILE,S,F,,,\n"} | names
+ {"at":"2024-03-01T23:00","do":"error","op":"PAYROLL/2024-03-01T22:00/020","code":"S0C7"} | names
LOOK /report/occurrences | 200 OK | OCCURRENCES AT 2024-03-01T23:00~BILLING          2024-03-01T22:00 5 W 2024-03-02T03:00     1     0~PAYROLL          2024-03-01T22:00 5 E 2024-03-02T05:00     5     2~END 2
LOOK /report/errors | 200 OK | ERRORS AT 2024-03-01T23:00~PAYROLL          2024-03-01T22:00  20 CPU1 S0C7~END 1
LOOK /why/BILLING/2024-03-01T22:00/010 | 200 OK | BILLING/2024-03-01T22:00/010 A 2024-03-01T23:00~CUSTFILE held by PAYROLL/2024-03-01T22:00/020 exclusive~END 1

+ create
+ NIGHT | names
+ {"at":"2024-03-01T22:00","do":"started","op":"PAYROLL/2024-03-01T22:00/005"} | names
+ {"at":"2024-03-01T22:05","do":"error","op":"PAYROLL/2024-03-01T22:00/005","code":"E1"} | names
LOOK /report/errors | 200 OK | ERRORS AT 2024-03-01T22:05~PAYROLL          2024-03-01T22:00   5 SETP E1  ~END 1

+ create
+ NIGHT | names
+ {"at":"2024-03-02T02:59","do":"tick"} | names
LOOK /report/late | 200 OK | LATE AT 2024-03-02T02:59~END 0
+ {"at":"2024-03-02T03:00","do":"tick"} | names
LOOK /report/late | 200 OK | LATE AT 2024-03-02T03:00~PAYROLL          2024-03-01T22:00   5 SETP A 2024-03-02T02:59~END 1

+ create
+ NIGHT | names
+ {"at":"2024-03-01T22:00","do":"started","op":"PAYROLL/2024-03-01T22:00/005"} | names
+ {"at":"2024-03-02T03:30","do":"tick"} | names
LOOK /report/late | 200 OK | LATE AT 2024-03-02T03:30~PAYROLL          2024-03-01T22:00  10 CPU1 W 2024-03-02T03:09~END 1

+ create
+ {"at":"2024-03-01T21:00","do":"load","records":"W,CPU1,A,,,,,,,\nI,CPU1,2024-03-01T22:00,2024-03-02T06:00,2,3,0,,,\nO,AAA,2024-03-01T22:00,5,2024-03-02T04:00,,,,,\nP,AAA,2024-03-01T22:00,10,CPU1,30,0,0,,\nO,OLD,1972-01-01T00:00,5,1972-01-01T00:30,,,,,\nP,OLD,1972-01-01T00:00,10,CPU1,20,0,0,,\nP,OLD,1972-01-01T00:00,20,CPU1,20,0,0,,\nD,OLD,1972-01-01T00:00,10,OLD,1972-01-01T00:00,20,,,\n"} | names
LOOK /report/ready/CPU1 | 200 OK | READY CPU1 AT 2024-03-01T21:00~OLD              1972-01-01T00:00  10 A - 5   20 ----------------~AAA              2024-03-01T22:00  10 A - 5   30 2024-03-02T03:30~END 2
+ report"#;
