// The commands and their options, as a table.

use clap::ArgAction;
use clap::builder::ValueParser;

/// The kinds of a report.
const KINDS: [&str; 4] = ["ready", "occurrences", "errors", "late"];

/// The kinds of a show.
const SHOWS: [&str; 8] = [
    "started",
    "operations",
    "resources",
    "workstations",
    "trackers",
    "dependencies",
    "reach",
    "intervals",
];

/// What an option's value may be.
#[derive(Clone, Copy)]
pub enum ValueForm {
    Text,
    /// A text, as often as the option is given.
    Texts,
    /// None: the option is given, or it isn't.
    Absent,
    Kind,
    Show,
    Port,
    Connections,
    Minutes,
    /// Minutes, as many as lie between any two moments.
    AllMinutes,
}

impl ValueForm {
    /// What giving the option does.
    pub fn action(self) -> ArgAction {
        match self {
            ValueForm::Texts => ArgAction::Append,
            ValueForm::Absent => ArgAction::SetTrue,
            _ => ArgAction::Set,
        }
    }

    /// What takes the value.
    pub fn parser(self) -> ValueParser<'static> {
        match self {
            ValueForm::Text | ValueForm::Texts => ValueParser::String,
            ValueForm::Absent => ValueParser::Bool,
            ValueForm::Kind => ValueParser::Names(&KINDS),
            ValueForm::Show => ValueParser::Names(&SHOWS),
            ValueForm::Port => ValueParser::Signed(1, 65_535),
            ValueForm::Connections => ValueParser::Signed(1, 1_000_000),
            ValueForm::Minutes => ValueParser::Signed(1, 5_256_000),
            ValueForm::AllMinutes => ValueParser::Signed(1, 52_596_000),
        }
    }
}

/// When an option has to be given.
#[derive(Clone, Copy)]
pub enum Need {
    Always,
    Never,
    /// Just where none of these others is given.
    InPlaceOf(&'static [&'static str]),
    /// Where none of these others is given; beside them it may be.
    Unless(&'static [&'static str]),
    /// It may be given where none of these others is.
    NotWith(&'static [&'static str]),
    /// It may be given, and these others then have to be.
    Together(&'static [&'static str]),
    /// So, and none of the last may then be.
    Beside(&'static [&'static str], &'static [&'static str]),
}

/// The same in terms of the other options.
#[derive(Clone, Copy)]
pub struct Rules {
    /// It has to be given.
    pub required: bool,
    /// It has to be given where none of these is.
    pub unless: &'static [&'static str],
    /// Where it is given, these have to be ..
    pub with: &'static [&'static str],
    /// .. and none of these may be.
    pub apart: &'static [&'static str],
}

const FREE: Rules = Rules {
    required: false,
    unless: &[],
    with: &[],
    apart: &[],
};

impl Need {
    pub fn rules(self) -> Rules {
        match self {
            Need::Always => Rules {
                required: true,
                ..FREE
            },
            Need::Never => FREE,
            Need::InPlaceOf(others) => Rules {
                unless: others,
                apart: others,
                ..FREE
            },
            Need::Unless(others) => Rules {
                unless: others,
                ..FREE
            },
            Need::NotWith(others) => Rules {
                apart: others,
                ..FREE
            },
            Need::Together(others) => Rules {
                with: others,
                ..FREE
            },
            Need::Beside(others, apart) => Rules {
                with: others,
                apart,
                ..FREE
            },
        }
    }
}

/// A long option, and its value.
#[derive(Clone, Copy)]
pub struct OptionForm {
    pub name: &'static str,
    /// What its value is called in a help.
    pub value_name: &'static str,
    pub help: &'static str,
    pub value: ValueForm,
    pub need: Need,
}

/// A command: its name, what it does, an example of its words, and its options.
#[derive(Clone, Copy)]
pub struct CommandForm {
    pub name: &'static str,
    pub about: &'static str,
    pub example: &'static str,
    pub options: &'static [OptionForm],
}

const DATABASE: OptionForm = OptionForm {
    name: "db",
    value_name: "FILE",
    help: "The database of the desk",
    value: ValueForm::Text,
    need: Need::Always,
};

const PLAN: OptionForm = OptionForm {
    name: "plan",
    value_name: "FILE",
    help: "The plan, as records of ten fields",
    value: ValueForm::Text,
    need: Need::Always,
};

const MOMENT: OptionForm = OptionForm {
    name: "at",
    value_name: "MOMENT",
    help: "The moment, as 2024-03-01T22:00",
    value: ValueForm::Text,
    need: Need::Always,
};

// The database of a desk, or in place of it a plan, for the commands that show either.
const SHOWN_DATABASE: OptionForm = OptionForm {
    name: "db",
    value_name: "FILE",
    help: "The database of the desk",
    value: ValueForm::Text,
    need: Need::InPlaceOf(&["plan"]),
};

const SHOWN_PLAN: OptionForm = OptionForm {
    name: "plan",
    value_name: "FILE",
    help: "In place of --db: a plan, loaded into a desk in memory at the moment of --at",
    value: ValueForm::Text,
    need: Need::Together(&["at"]),
};

const SHOWN_MOMENT: OptionForm = OptionForm {
    name: "at",
    value_name: "MOMENT",
    help: "The moment, as 2024-03-01T22:00; the clock of the desk where it isn't given",
    value: ValueForm::Text,
    need: Need::Never,
};

// How far a forecast goes.
const LAST_MOMENT: OptionForm = OptionForm {
    name: "until",
    value_name: "MOMENT",
    help: "The moment up to which it goes, as 2024-03-02T06:00; as long as anything ends or begins where it isn't given",
    value: ValueForm::Text,
    need: Need::Never,
};

const PORT: OptionForm = OptionForm {
    name: "port",
    value_name: "PORT",
    help: "The port, on 127.0.0.1: 1 to 65535",
    value: ValueForm::Port,
    need: Need::Always,
};

/// All commands.
pub const COMMANDS: [CommandForm; 13] = [
    CommandForm {
        name: "validate",
        about: "Tells what is wrong with a plan, an extension or a request; nothing is stored",
        example: "Example: plandesk validate --plan day.csv",
        options: &[
            OptionForm {
                name: "plan",
                value_name: "FILE",
                help: "The plan, as records of ten fields; with --extension that which it is to extend, loaded at the moment of --at",
                value: ValueForm::Text,
                need: Need::Unless(&["extension", "request"]),
            },
            OptionForm {
                name: "extension",
                value_name: "FILE",
                help: "An extension: judged beside the plan of --db, or of --plan, or as far as it can be without one",
                value: ValueForm::Text,
                need: Need::Never,
            },
            OptionForm {
                name: "request",
                value_name: "TEXT",
                help: "In place of --plan: a request, as `do` takes it; - is standard input",
                value: ValueForm::Text,
                need: Need::NotWith(&["plan", "extension"]),
            },
            OptionForm {
                name: "db",
                value_name: "FILE",
                help: "With --extension: the database of the desk whose plan it is to extend",
                value: ValueForm::Text,
                need: Need::Beside(&["extension"], &["plan", "at"]),
            },
            OptionForm {
                name: "at",
                value_name: "MOMENT",
                help: "With --extension and --plan: the moment, as 2024-03-01T22:00",
                value: ValueForm::Text,
                need: Need::Beside(&["extension"], &["request"]),
            },
        ],
    },
    CommandForm {
        name: "check",
        about: "Reads a plan and tells what starts at a moment; nothing is stored",
        example: "Example: plandesk check --plan day.csv --at 2024-03-01T22:00",
        options: &[PLAN, MOMENT],
    },
    CommandForm {
        name: "load",
        about: "Loads a plan into a database, which is made where there is none",
        example: "Example: plandesk load --db night.db --plan day.csv --at 2024-03-01T22:00",
        options: &[DATABASE, PLAN, MOMENT],
    },
    CommandForm {
        name: "extend",
        about: "Takes what is complete or deleted out of the desk of a database, and an extension in",
        example: "Example: plandesk extend --db night.db --plan tomorrow.csv --at 2024-03-02T12:00",
        options: &[
            DATABASE,
            OptionForm {
                name: "plan",
                value_name: "FILE",
                help: "The extension, as records of ten fields: any number of occurrences, none too",
                value: ValueForm::Text,
                need: Need::Always,
            },
            MOMENT,
        ],
    },
    CommandForm {
        name: "do",
        about: "Makes one request of an operator at the desk of a database",
        example: "Example: plandesk do --db night.db --request '{\"at\":\"2024-03-01T22:05\",\"do\":\"tick\"}'",
        options: &[
            DATABASE,
            OptionForm {
                name: "request",
                value_name: "TEXT",
                help: "The request, as a JSON object with `at`, `do` and what that needs",
                value: ValueForm::Text,
                need: Need::Always,
            },
        ],
    },
    CommandForm {
        name: "report",
        about: "Prints a report of the desk of a database",
        example: "Example: plandesk report --db night.db --kind ready --ws CPU1",
        options: &[
            DATABASE,
            OptionForm {
                name: "kind",
                value_name: "KIND",
                help: "Which report",
                value: ValueForm::Kind,
                need: Need::Always,
            },
            OptionForm {
                name: "ws",
                value_name: "NAME",
                help: "The workstation whose ready list is shown: needed for `ready`, not looked at otherwise",
                value: ValueForm::Text,
                need: Need::Never,
            },
        ],
    },
    CommandForm {
        name: "show",
        about: "Shows what the desk of a database has: what is started, an occurrence's operations or dependencies, what a rerun reaches, resources, workstations, intervals or trackers",
        example: "Example: plandesk show --db night.db --kind operations --occ PAYROLL/2024-03-01T22:00",
        options: &[
            DATABASE,
            OptionForm {
                name: "kind",
                value_name: "KIND",
                help: "What is shown",
                value: ValueForm::Show,
                need: Need::Always,
            },
            OptionForm {
                name: "occ",
                value_name: "KEY",
                help: "The occurrence, as PAYROLL/2024-03-01T22:00: needed for `operations` and `dependencies`, not looked at otherwise",
                value: ValueForm::Text,
                need: Need::Never,
            },
            OptionForm {
                name: "op",
                value_name: "KEY",
                help: "The operation, as PAYROLL/2024-03-01T22:00/10: needed for `reach`, not looked at otherwise",
                value: ValueForm::Text,
                need: Need::Never,
            },
            OptionForm {
                name: "ws",
                value_name: "NAME",
                help: "The workstation: needed for `intervals`, not looked at otherwise",
                value: ValueForm::Text,
                need: Need::Never,
            },
        ],
    },
    CommandForm {
        name: "why",
        about: "Tells why an operation doesn't go on at a moment, and what it waits for in the end",
        example: "Example: plandesk why --db night.db --op PAYROLL/2024-03-01T22:00/10",
        options: &[
            SHOWN_DATABASE,
            SHOWN_PLAN,
            OptionForm {
                name: "op",
                value_name: "KEY",
                help: "The operation, as PAYROLL/2024-03-01T22:00/10; its number may have zeros before it",
                value: ValueForm::Text,
                need: Need::Always,
            },
            SHOWN_MOMENT,
        ],
    },
    CommandForm {
        name: "forecast",
        about: "Tells how a plan will go: what begins and ends when, what will be late and what never begins; nothing is stored",
        example: "Example: plandesk forecast --db night.db --until 2024-03-02T06:00",
        options: &[SHOWN_DATABASE, SHOWN_PLAN, SHOWN_MOMENT, LAST_MOMENT],
    },
    CommandForm {
        name: "board",
        about: "Prints the page of a forecast, as HTML: whether the night holds, and who has to do what; nothing is stored",
        example: "Example: plandesk board --db night.db",
        options: &[SHOWN_DATABASE, SHOWN_PLAN, SHOWN_MOMENT, LAST_MOMENT],
    },
    CommandForm {
        name: "serve",
        about: "Serves trackers and operators over HTTP, one connection after another",
        example: "Example: plandesk serve --db night.db --port 8080 --requests 1000",
        options: &[
            DATABASE,
            PORT,
            OptionForm {
                name: "requests",
                value_name: "NUMBER",
                help: "How many connections are served: 1 to 1000000",
                value: ValueForm::Connections,
                need: Need::Always,
            },
        ],
    },
    CommandForm {
        name: "desk",
        about: "Serves trackers and operators over HTTP for good, and whoever looks at the desk",
        example: "Example: plandesk desk --db night.db --port 8080 --journal night.log\nTo look at: / /board /forecast /health /report/occurrences /report/errors /report/late /report/ready/WS /show/dependencies/OCC /show/intervals/WS /show/operations/OCC /show/reach/KEY /show/resources /show/started /show/trackers /show/workstations /started /started/WS /why/KEY; as pages /page/show/operations/OCC /page/why/KEY",
        options: &[
            DATABASE,
            PORT,
            OptionForm {
                name: "at",
                value_name: "MOMENT",
                help: "A moment, as 2024-03-01T22:00, to which the plan is brought first, where that is later than its clock",
                value: ValueForm::Text,
                need: Need::Never,
            },
            OptionForm {
                name: "ahead",
                value_name: "MINUTES",
                help: "How far after the plan's clock a request's moment may be: 1 to 5256000 minutes, 1440 where it isn't given",
                value: ValueForm::Minutes,
                need: Need::Never,
            },
            OptionForm {
                name: "gap",
                value_name: "MINUTES",
                help: "How far after the plan's clock the moment of --at may be: 1 to 52596000 minutes, 43200 where it isn't given",
                value: ValueForm::AllMinutes,
                need: Need::Never,
            },
            OptionForm {
                name: "stale",
                value_name: "MINUTES",
                help: "From how many minutes on the board alarms that the plan's clock stands: 1 to 5256000, 3 where it isn't given",
                value: ValueForm::Minutes,
                need: Need::Never,
            },
            OptionForm {
                name: "bound",
                value_name: "",
                help: "A report is taken from the tracker alone that the field Plandesk-By of its head names",
                value: ValueForm::Absent,
                need: Need::Never,
            },
            OptionForm {
                name: "journal",
                value_name: "FILE",
                help: "Where a line for each request and one for its answer are appended; made where there is none. It may be moved meanwhile",
                value: ValueForm::Text,
                need: Need::Never,
            },
        ],
    },
    CommandForm {
        name: "play",
        about: "Loads a plan, makes requests one after another and prints each answer; nothing is stored",
        example: "Example: plandesk play --plan day.csv --at 2024-03-01T21:00 --requests night.json",
        options: &[
            PLAN,
            MOMENT,
            OptionForm {
                name: "requests",
                value_name: "FILE",
                help: "The requests, one to a line, as `do` takes them; - is standard input",
                value: ValueForm::Text,
                need: Need::InPlaceOf(&["journal"]),
            },
            OptionForm {
                name: "journal",
                value_name: "FILE",
                help: "In place of --requests: the journal of a desk, from the load on; its answers are compared. One of several files is given so for each, in their order",
                value: ValueForm::Texts,
                need: Need::Never,
            },
        ],
    },
];
