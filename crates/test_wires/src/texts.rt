// Requests and replies as texts.
use std::alloc::Global;

/// The body that loads the plan of a worked night at 21:00.
pub const NIGHT: &str = concat!(
    "{\"at\":\"2024-03-01T21:00\",\"do\":\"load\",\"records\":\"",
    "W,CPU1,A,,,,,,,\\n",
    "W,SETP,S,,,,,,,\\n",
    "W,PRT1,C,,,,,,,\\n",
    "W,DUMM,N,,,,,,,\\n",
    "I,CPU1,2024-03-01T22:00,2024-03-02T06:00,2,3,0,,,\\n",
    "I,SETP,2024-03-01T22:00,2024-03-02T02:00,1,0,0,,,\\n",
    "X,CUSTFILE,Y,,,,,,,\\n",
    "O,PAYROLL,2024-03-01T22:00,5,2024-03-02T05:00,,,,,\\n",
    "P,PAYROLL,2024-03-01T22:00,5,SETP,10,0,0,,\\n",
    "P,PAYROLL,2024-03-01T22:00,10,CPU1,30,0,0,,\\n",
    "P,PAYROLL,2024-03-01T22:00,20,CPU1,60,0,0,,\\n",
    "P,PAYROLL,2024-03-01T22:00,30,DUMM,1,0,0,,\\n",
    "P,PAYROLL,2024-03-01T22:00,40,PRT1,20,0,0,,\\n",
    "N,PAYROLL,2024-03-01T22:00,20,CUSTFILE,X,K,,,\\n",
    "D,PAYROLL,2024-03-01T22:00,5,PAYROLL,2024-03-01T22:00,10,,,\\n",
    "D,PAYROLL,2024-03-01T22:00,10,PAYROLL,2024-03-01T22:00,20,,,\\n",
    "D,PAYROLL,2024-03-01T22:00,20,PAYROLL,2024-03-01T22:00,30,,,\\n",
    "D,PAYROLL,2024-03-01T22:00,30,PAYROLL,2024-03-01T22:00,40,,,\\n",
    "\\n\"}",
);

/// A request with a body.
pub fn post(alloc: Global, path: &str, body: &str) -> Option<String> {
    let length = body.len();
    format!(in alloc;
        "POST {path} HTTP/1.1\r\nHost: localhost\r\nContent-Length: {length}\r\n\r\n{body}"
    ).ok()
}

/// A request without a body.
pub fn get(alloc: Global, path: &str) -> Option<String> {
    format!(in alloc; "GET {path} HTTP/1.1\r\nHost: localhost\r\n\r\n").ok()
}

/// What is reported of an operation of PAYROLL, at a time of the first evening.
#[derive(Clone, Copy)]
pub struct Report<'a> {
    pub tracker: &'a str,
    pub number: u64,
    pub at: &'a str,
    pub verb: &'a str,
    pub op: &'a str,
}

impl Report<'_> {
    /// Its body.
    pub fn body(&self, alloc: Global) -> Option<String> {
        let Report {
            tracker,
            number,
            at,
            verb,
            op,
        } = self;
        format!(in alloc;
            "{{\"tracker\":\"{tracker}\",\"number\":{number},\"at\":\"2024-03-01T{at}\",\"do\":\"{verb}\",\"op\":\"PAYROLL/2024-03-01T22:00/{op}\"}}"
        ).ok()
    }

    /// The request that makes it.
    pub fn request(&self, alloc: Global) -> Option<String> {
        post(alloc, "/report", &self.body(alloc)?)
    }
}

/// The first report of a tracker: operation 5 is started at 22:00.
pub const START: Report<'static> = Report {
    tracker: "T1",
    number: 1,
    at: "22:00",
    verb: "started",
    op: "005",
};

/// A whole reply: its status with the phrase, further lines of its head, each with its end, the length and the body.
pub fn reply(alloc: Global, status: &str, more: &str, length: usize, body: &str) -> Option<String> {
    format!(in alloc;
        "HTTP/1.1 {status}\r\nContent-Type: application/json\r\nContent-Length: {length}\r\nConnection: close\r\n{more}\r\n{body}"
    ).ok()
}

/// The reply to a request that is accepted and names no operation.
pub fn accepted(alloc: Global) -> Option<String> {
    reply(alloc, "200 OK", "", 12, "{\"named\":[]}")
}

/// The reply to a request that fails a test of its form: its body has the code of the status.
pub fn fault(alloc: Global, status: &str, more: &str) -> Option<String> {
    let code = status.get(..3)?;
    let body = format!(in alloc; "{{\"error\":{code}}}").ok()?;
    reply(alloc, status, more, 13, &body)
}
