// The texts of the program's pages, and of what is wrong with a value.

/// The program's name.
pub(crate) const NAME: &str = "plcsafe-bench";

/// What `--version` writes.
pub(crate) const VERSION: &str = "\
plcsafe-bench 0.9.0\n\
";

/// The page of the program.
pub(crate) const PROGRAM: &str = "\
Tests applications of PLCopen-Safety blocks: runs the cases of case files, judges what they expect, shows runs,\n\
tells why a value is so and what traces cover, searches for what must never be and for where\n\
two applications differ, counts how faults are found, writes a page for the safety file,\n\
and answers a bench scan by scan\n\
\n\
Usage: plcsafe-bench <COMMAND>\n\
\n\
Commands:\n\
\x20 test      Runs each case in a world of its own, with its faults, and tells which expectations fail\n\
\x20 expand    Writes one trace of all cases of a case file, which plcsafe runs\n\
\x20 watch     Shows what happens in a run, by name: changes in words, or each scan in CSV, JSON or VCD\n\
\x20 trace     Writes the trace of a log in CSV, whose columns are named as the inputs\n\
\x20 why       Tells why something has its value in a scan, down to inputs, states and the scan before\n\
\x20 cover     Tells which states, ways, values and decisions traces have shown, and which never\n\
\x20 never     Searches all scans that can come for one that a rule forbids, and shows a shortest\n\
\x20 same      Searches all scans that can come for one in which two applications differ in an output\n\
\x20 campaign  Runs a trace with one drawn fault a trial, and counts what finds the faults, and how soon\n\
\x20 sum       Adds what campaigns counted in parts, which may be made on many machines\n\
\x20 report    Writes a page in HTML for the safety file: the application, its cases and what they show\n\
\x20 live      Runs a trace that comes at standard input, and answers each scan before it reads on\n\
\x20 help      Writes this page, or the page of a command\n\
\n\
Options:\n\
\x20 -h, --help     Print help\n\
\x20 -V, --version  Print version\n\
\n\
Example: plcsafe-bench test press.st press.cases\n\
\n\
Status: 0 all was done and every case passed, 1 an application is refused, 2 the words are not taken,\n\
3 a case file, trace, fault file, rules file, CSV or file of counts is refused,\n\
4 a case failed, a rule does not hold, less was covered or a scan tripped,\n\
5 a file cannot be read, 6 the output failed, 7 memory is wanting, 8 the words are no text\n\
";

/// The page of `test`.
pub(crate) const TEST: &str = "\
Runs each case in a world of its own, with its faults, and tells which expectations fail\n\
\n\
Usage: test [OPTIONS] <APP> <CASES>...\n\
\n\
Arguments:\n\
\x20 <APP>       The application's text\n\
\x20 <CASES>...  The case files, in the order in which they are run\n\
\n\
Options:\n\
\x20     --format <FORMAT>  How the results are told: text, tap (TAP version 13) or junit (XML). Left out it is text\n\
\x20 -h, --help             Print help\n\
\n\
Example: plcsafe-bench test press.st press.cases --format tap\n\
";

/// The page of `expand`.
pub(crate) const EXPAND: &str = "\
Writes one trace of all cases of a case file, which plcsafe runs\n\
\n\
Usage: expand <APP> <CASES>\n\
\n\
Arguments:\n\
\x20 <APP>    The application's text\n\
\x20 <CASES>  The case file\n\
\n\
Options:\n\
\x20 -h, --help  Print help\n\
\n\
Example: plcsafe-bench expand press.st press.cases > press.trace\n\
";

/// The page of `watch`.
pub(crate) const WATCH: &str = "\
Shows what happens in a run, by name: changes in words, or each scan in CSV, JSON or VCD\n\
\n\
Usage: watch [OPTIONS] <APP> <TRACE> [NAME]...\n\
\n\
Arguments:\n\
\x20 <APP>      The application's text\n\
\x20 <TRACE>    The trace, FILE.cases for all cases of a file, or FILE.cases:LINE for the case that has this line\n\
\x20 [NAME]...  What is watched: inputs, outputs, locals, INSTANCE for its state, INSTANCE.PIN. Left out, as text all \
outputs\n\
\x20            and instances, and in the other formats all that there is\n\
\n\
Options:\n\
\x20     --faults <FAULTS>  The faults that strike; outputs and codes are then those that are released\n\
\x20     --format <FORMAT>  How the run is written: text (what changes), csv, json (an object a line) or vcd. \
Left out it is text\n\
\x20 -h, --help             Print help\n\
\n\
Example: plcsafe-bench watch press.st press.trace S_Ram Guard --faults press.faults\n\
";

/// The page of `trace`.
pub(crate) const TRACE: &str = "\
Writes the trace of a log in CSV, whose columns are named as the inputs\n\
\n\
Usage: trace <APP> <CSV>\n\
\n\
Arguments:\n\
\x20 <APP>  The application's text\n\
\x20 <CSV>  The log: a column time (or @time) in ms, and one for each input\n\
\n\
Options:\n\
\x20 -h, --help  Print help\n\
\n\
Example: plcsafe-bench trace press.st machine.csv > machine.trace\n\
";

/// The page of `why`.
pub(crate) const WHY: &str = "\
Tells why something has its value in a scan, down to inputs, states and the scan before\n\
\n\
Usage: why [OPTIONS] <APP> <TRACE> <TIME> <NAME>\n\
\n\
Arguments:\n\
\x20 <APP>    The application's text\n\
\x20 <TRACE>  The trace, FILE.cases for all cases of a file, or FILE.cases:LINE for the case that has this line\n\
\x20 <TIME>   The time in ms: what is explained is the last scan at or before it\n\
\x20 <NAME>   What is explained: an input, an output, a local, INSTANCE for its state and outputs, or INSTANCE.PIN\n\
\n\
Options:\n\
\x20     --format <FORMAT>  How it is told: text or json. Left out it is text\n\
\x20 -h, --help             Print help\n\
\n\
Example: plcsafe-bench why press.st press.trace 400 S_Ram\n\
";

/// The page of `cover`.
pub(crate) const COVER: &str = "\
Tells which states, ways, values and decisions traces have shown, and which never\n\
\n\
Usage: cover [OPTIONS] <APP> <TRACE>...\n\
\n\
Arguments:\n\
\x20 <APP>       The application's text\n\
\x20 <TRACE>...  The traces, each begun anew. FILE.cases and FILE.cases:LINE are taken too\n\
\n\
Options:\n\
\x20     --format <FORMAT>  How it is told: text or json. Left out it is text\n\
\x20     --least <PERCENT>  How much has to be covered, from 0 to 100: the status is 4 where one of the four is below\n\
\x20     --ideas...         Adds for each way that was never taken lines with which a case may begin\n\
\x20 -h, --help             Print help\n\
\n\
Example: plcsafe-bench cover press.st press.cases --least 80\n\
";

/// The page of `never`.
pub(crate) const NEVER: &str = "\
Searches all scans that can come for one that a rule forbids, and shows a shortest\n\
\n\
Usage: never [OPTIONS] <APP> <RULES>\n\
\n\
Arguments:\n\
\x20 <APP>    The application's text\n\
\x20 <RULES>  How scans come, and what must never be\n\
\n\
Options:\n\
\x20     --states <N>  How many states may be held, from 1. Left out they are 1000000\n\
\x20 -h, --help        Print help\n\
\n\
Example: plcsafe-bench never press.st press.rules\n\
";

/// The page of `same`.
pub(crate) const SAME: &str = "\
Searches all scans that can come for one in which two applications differ in an output\n\
\n\
Usage: same [OPTIONS] <APP> <OTHER> [RULES]\n\
\n\
Arguments:\n\
\x20 <APP>    The application's text\n\
\x20 <OTHER>  The other application's text\n\
\x20 [RULES]  How scans come: a rules file with settings alone. Left out, 10 ms apart, and all inputs are free\n\
\n\
Options:\n\
\x20     --states <N>  How many states may be held, from 1. Left out they are 1000000\n\
\x20 -h, --help        Print help\n\
\n\
Example: plcsafe-bench same press.st mended.st\n\
";

/// The page of `campaign`.
pub(crate) const CAMPAIGN: &str = "\
Runs a trace with one drawn fault a trial, and counts what finds the faults, and how soon\n\
\n\
Usage: campaign [OPTIONS] <APP> <TRACE> <FROM> <COUNT>\n\
\n\
Arguments:\n\
\x20 <APP>    The application's text\n\
\x20 <TRACE>  The trace, FILE.cases for all cases of a file, or FILE.cases:LINE for the case that has this line\n\
\x20 <FROM>   The number of the first trial, from 0: its fault is drawn from it\n\
\x20 <COUNT>  How many trials are made\n\
\n\
Options:\n\
\x20     --channel <CHANNEL>  The channel that each fault strikes: A or B. Left out it is drawn\n\
\x20     --print...           Writes the fault of each trial first, as a line of a fault file\n\
\x20 -h, --help               Print help\n\
\n\
Example: plcsafe-bench campaign press.st press.trace 0 10000\n\
";

/// The page of `sum`.
pub(crate) const SUM: &str = "\
Adds what campaigns counted in parts, which may be made on many machines\n\
\n\
Usage: sum <FILE>...\n\
\n\
Arguments:\n\
\x20 <FILE>...  What campaign or sum wrote, of one application and one trace, in any order\n\
\n\
Options:\n\
\x20 -h, --help  Print help\n\
\n\
Example: plcsafe-bench sum first.counts second.counts\n\
";

/// The page of `report`.
pub(crate) const REPORT: &str = "\
Writes a page in HTML for the safety file: the application, its cases and what they show\n\
\n\
Usage: report [OPTIONS] <APP> <CASES>...\n\
\n\
Arguments:\n\
\x20 <APP>       The application's text\n\
\x20 <CASES>...  The case files, in the order in which they are run\n\
\n\
Options:\n\
\x20     --title <TEXT>  The title of the page. Left out it is the application's name\n\
\x20 -h, --help          Print help\n\
\n\
Example: plcsafe-bench report press.st press.cases --title Press > press.html\n\
";

/// The page of `live`.
pub(crate) const LIVE: &str = "\
Runs a trace that comes at standard input, and answers each scan before it reads on\n\
\n\
Usage: live [OPTIONS] <APP>\n\
\n\
Arguments:\n\
\x20 <APP>  The application's text\n\
\n\
Options:\n\
\x20     --names...  Tells what changes by name, as watch does, in place of the lines of reports\n\
\x20 -h, --help      Print help\n\
\n\
Example: plcsafe-bench live press.st < press.trace\n\
";

/// The page of `help`.
pub(crate) const HELP: &str = "\
Writes this page, or the page of a command\n\
\n\
Usage: help [COMMAND]\n\
\n\
Arguments:\n\
\x20 [COMMAND]  The command whose page is written\n\
\n\
Options:\n\
\x20 -h, --help  Print help\n\
\n\
Example: plcsafe-bench help test\n\
";

/// A form of results that there is not.
pub(crate) const NO_FORMAT: &str = "there is no such format: FORMAT is text, tap or junit";

/// A way to write a run that there is not.
pub(crate) const NO_LAYOUT: &str = "there is no such format: FORMAT is text, csv, json or vcd";

/// A way to tell something that there is not.
pub(crate) const NO_OUTPUT: &str = "there is no such format: FORMAT is text or json";

/// A time that is none.
pub(crate) const NO_TIME: &str = "TIME is a number of ms from 0 to 4294967295";

/// A number of states that is none.
pub(crate) const NO_STATES: &str = "N is a number from 1 to 4294967295";

/// A number of trials, or of the first one, that is none.
pub(crate) const NO_NUMBER: &str = "FROM and COUNT are numbers from 0 to 4294967295";

/// A channel that there is not.
pub(crate) const NO_CHANNEL: &str = "there is no such channel: CHANNEL is A or B";

/// A percentage that is none.
pub(crate) const NO_PERCENT: &str = "PERCENT is a number from 0 to 100";

/// A command that there is not.
pub(crate) const NO_COMMAND: &str =
    "there is no such command: COMMAND is test, expand, watch, trace, why, cover, never, same, campaign, sum, report, \
    live or help";
