// The forms of the commands, in groups in the order of the program's page: which words and options each has. What their
// pages say is in `pages`. A table of all of them at once would be dear to prove.

ghost use Rattle.std.specs.Prelude.{◌≡◌, map};
ghost use Rattle.ps_bench_words.specs.Seen as seen;
ghost use Rattle.ps_bench_words.specs.Seen.{shape_seen};

/// How an argument is given.
#[derive(Clone, Copy)]
pub(crate) enum Given {
    /// As a word.
    Word,
    /// As one word or several.
    Words,
    /// As an option with a value, which usage calls so.
    Value(&'static str),
    /// As an option without a value, which may be given more than once.
    Flag,
}

/// An argument of a command.
#[derive(Clone, Copy)]
pub(crate) struct Argument {
    /// By what it is read back: what usage calls a word, or the name of an option after its `--`.
    pub(crate) id: &'static str,
    /// Whether it may not be left out.
    pub(crate) required: bool,
    /// How it is given.
    pub(crate) given: Given,
}

/// The form of a command.
#[derive(Clone, Copy)]
pub(crate) struct Form {
    /// Its name.
    pub(crate) name: &'static str,
    /// Its name after that of the program.
    pub(crate) call: &'static str,
    /// Its words and options, in the order of its usage.
    pub(crate) arguments: &'static [Argument],
}

// An argument of a table: by what it is read back, and how it is given.
macro_rules! argument {
    ($id:expr, $given:expr) => {
        Argument {
            id: $id,
            required: false,
            given: $given,
        }
    };
}

// The same, which may not be left out.
macro_rules! required {
    ($id:expr, $given:expr) => {
        Argument {
            id: $id,
            required: true,
            given: $given,
        }
    };
}

// The application.
const APP: Argument = required!("APP", Given::Word);

// One case file.
const FILE: Argument = required!("CASES", Given::Word);

// Case files.
const FILES: Argument = required!("CASES", Given::Words);

// How results are told.
const FORMAT: Argument = argument!("format", Given::Value("FORMAT"));

// A trace, or what means one.
const TRACE: Argument = required!("TRACE", Given::Word);

// A time in a trace.
const TIME: Argument = required!("TIME", Given::Word);

// What is explained.
const ASKED: Argument = required!("NAME", Given::Word);

// Traces, or what means them.
const TRACES: Argument = required!("TRACE", Given::Words);

// Names that are watched.
const NAMES: Argument = argument!("NAME", Given::Words);

// A fault file.
const FAULTS: Argument = argument!("faults", Given::Value("FAULTS"));

// How a run is written.
const LAYOUT: Argument = argument!("format", Given::Value("FORMAT"));

// A log.
const CSV: Argument = required!("CSV", Given::Word);

// How something is told.
const OUTPUT: Argument = argument!("format", Given::Value("FORMAT"));

// How much has to be covered.
const LEAST: Argument = argument!("least", Given::Value("PERCENT"));

// Whether ideas for cases are told.
const IDEAS: Argument = argument!("ideas", Given::Flag);

// A rules file.
const RULES: Argument = required!("RULES", Given::Word);

// The other application.
const OTHER: Argument = required!("OTHER", Given::Word);

// How scans come.
const SETTINGS: Argument = argument!("RULES", Given::Word);

// How many states may be held.
const STATES: Argument = argument!("states", Given::Value("N"));

// The number of a first trial.
const FROM: Argument = required!("FROM", Given::Word);

// A number of trials.
const COUNT: Argument = required!("COUNT", Given::Word);

// The channel that is struck.
const CHANNEL: Argument = argument!("channel", Given::Value("CHANNEL"));

// Whether faults are written.
const PRINT: Argument = argument!("print", Given::Flag);

// Files of counts.
const COUNTS: Argument = required!("FILE", Given::Words);

// Whether scans are told by name.
const NAMED: Argument = argument!("names", Given::Flag);

// The title of a page.
const TITLE: Argument = argument!("title", Given::Value("TEXT"));

// The command that help is asked for.
const TOPIC: Argument = argument!("COMMAND", Given::Word);

/// The forms of `test`, `expand` and `watch`.
#[tactic(auto, unfolding(crate::specs::Seen::of_cases))]
pub(crate) fn of_cases() -> &'static [Form]
    ensures { map shape_seen result.now ≡ seen.of_cases }
{
    &FORMS_OF_CASES
}

// The same as a table.
static FORMS_OF_CASES: [Form; 3] = [
    Form {
        name: "test",
        call: "plcsafe-bench test",
        arguments: &[APP, FILES, FORMAT],
    },
    Form {
        name: "expand",
        call: "plcsafe-bench expand",
        arguments: &[APP, FILE],
    },
    Form {
        name: "watch",
        call: "plcsafe-bench watch",
        arguments: &[APP, TRACE, NAMES, FAULTS, LAYOUT],
    },
];

/// The forms of `trace`, `why` and `cover`.
#[tactic(auto, unfolding(crate::specs::Seen::of_traces))]
pub(crate) fn of_traces() -> &'static [Form]
    ensures { map shape_seen result.now ≡ seen.of_traces }
{
    &FORMS_OF_TRACES
}

// The same as a table.
static FORMS_OF_TRACES: [Form; 3] = [
    Form {
        name: "trace",
        call: "plcsafe-bench trace",
        arguments: &[APP, CSV],
    },
    Form {
        name: "why",
        call: "plcsafe-bench why",
        arguments: &[APP, TRACE, TIME, ASKED, OUTPUT],
    },
    Form {
        name: "cover",
        call: "plcsafe-bench cover",
        arguments: &[APP, TRACES, OUTPUT, LEAST, IDEAS],
    },
];

/// The forms of `never` and `same`.
#[tactic(auto, unfolding(crate::specs::Seen::of_searches))]
pub(crate) fn of_searches() -> &'static [Form]
    ensures { map shape_seen result.now ≡ seen.of_searches }
{
    &FORMS_OF_SEARCHES
}

// The same as a table.
static FORMS_OF_SEARCHES: [Form; 2] = [
    Form {
        name: "never",
        call: "plcsafe-bench never",
        arguments: &[APP, RULES, STATES],
    },
    Form {
        name: "same",
        call: "plcsafe-bench same",
        arguments: &[APP, OTHER, SETTINGS, STATES],
    },
];

/// The forms of `campaign` and `sum`.
#[tactic(auto, unfolding(crate::specs::Seen::of_campaigns))]
pub(crate) fn of_campaigns() -> &'static [Form]
    ensures { map shape_seen result.now ≡ seen.of_campaigns }
{
    &FORMS_OF_CAMPAIGNS
}

// The same as a table.
static FORMS_OF_CAMPAIGNS: [Form; 2] = [
    Form {
        name: "campaign",
        call: "plcsafe-bench campaign",
        arguments: &[APP, TRACE, FROM, COUNT, CHANNEL, PRINT],
    },
    Form {
        name: "sum",
        call: "plcsafe-bench sum",
        arguments: &[COUNTS],
    },
];

/// The forms of `report`, `live` and `help`.
#[tactic(auto, unfolding(crate::specs::Seen::of_pages))]
pub(crate) fn of_pages() -> &'static [Form]
    ensures { map shape_seen result.now ≡ seen.of_pages }
{
    &FORMS_OF_PAGES
}

// The same as a table.
static FORMS_OF_PAGES: [Form; 3] = [
    Form {
        name: "report",
        call: "plcsafe-bench report",
        arguments: &[APP, FILES, TITLE],
    },
    Form {
        name: "live",
        call: "plcsafe-bench live",
        arguments: &[APP, NAMED],
    },
    Form {
        name: "help",
        call: "plcsafe-bench help",
        arguments: &[TOPIC],
    },
];
