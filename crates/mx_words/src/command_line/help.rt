//! What the help of each word says behind its arguments, with an example that `transcripts/tour.md` runs.

/// What FILE is.
pub(crate) const FILE: &str = "The database file";

/// What TAIL is.
pub(crate) const TAIL: &str = "The registration, 1 to 8 of A to Z, 0 to 9 and -";

/// What DAY is.
pub(crate) const DAY: &str = "The day, YYYY-MM-DD";

/// What DAY is of a list that looks ahead.
pub(crate) const DAY_AHEAD: &str = "The day to look ahead from, YYYY-MM-DD";

/// What DAYS is.
pub(crate) const DAYS: &str = "The days to look ahead, 0 to 3650";

/// What MINUTES is.
pub(crate) const MINUTES: &str = "The flight minutes a day, 0 to 1440";

/// What CYCLES is.
pub(crate) const CYCLES: &str = "The cycles a day, 0 to 50";

/// The program: its words in groups, each with a line of its own.
pub(crate) const OFFICE: &str = "\
Keeps the continuing airworthiness records of a small operator\n\n\
Usage: office <COMMAND>\n\n\
Each day:\n  \
fleet       What is due on all aircraft, and what is left until then on a day\n  \
due         What is due on an aircraft, and what is left until then on a day\n  \
deferred    The last day of each open defect of all aircraft, and what is left until then\n  \
limits      The last day of each open defect of an aircraft, and what is left until then\n  \
outlook     What will be due on all aircraft, and when, at one rate for all\n  \
forecast    What will be due on an aircraft, and when, at the rate that it is flown\n\n\
What there is:\n  \
aircraft    All aircraft, with the life of each, its components and open defects\n  \
components  All components, with the life of each, and where it is fitted\n  \
life        The life of an aircraft, and of each component that is fitted to it\n\n\
Entering:\n  \
enter       Enters the commands of a file, and prints a reply for each\n  \
import      Enters the sectors of a log, and prints a reply or a fault for each row\n  \
programme   Enters the maintenance programme of a file by a document\n\n\
The file:\n  \
init        Makes an empty book in a file\n  \
verify      Reads a file whole, and prints whether its tables are those of a book\n  \
migrate     Moves a file of an older layout on, and prints the point that it is at\n  \
init-old    Makes a file of the oldest layout with the commands of a file in it\n\n\
Others:\n  \
serve       Answers requests over HTTP at a port of this machine alone\n  \
explain     Prints what a refusal or a fault means, and what to do about it\n  \
try         Enters an aircraft and one sector into a store in memory, and prints the life\n\n\
Options:\n  \
-h, --help     Print help; behind a word, that of the word\n  \
-V, --version  Print version\n\n\
FILE is a database; its log lies beside it, as FILE-wal. One program at a time has it open.\n\
A day is YYYY-MM-DD, a moment YYYY-MM-DDTHH:MM in UTC, from 1970-01-01 to 2199-12-31.\n\
Flight time is entered in minutes and printed in hours, H:MM.\n\
Status: 0 all was done, 1 something was refused, 2 other words than these, 3 a faulty input\n\
file, 4 a fault after FILE was opened, 5 FILE could not be opened or made.\n\n\
Example:\n  office due fleet.db D-EABC 2024-02-01";

/// `try`.
pub(crate) const TRY: &str = "\
Nothing is kept. The sector takes 1 to 1440 minutes.\n\n\
Example:\n  office try D-ABCD 60000 800 2024-03-01T08:00 2024-03-01T09:30 1";

/// `init`.
pub(crate) const INIT: &str = "\
FILE is new or empty: one that has anything in it is left as it is. It prints `created`.\n\n\
Example:\n  office init fleet.db";

/// `life`.
pub(crate) const LIFE: &str = "\
A row is the kind, hours and cycles of the airframe, or the position, serial number, part, hours\n\
and cycles of a component.\n\n\
Example:\n  office life fleet.db D-EABC";

/// `due`.
pub(crate) const DUE: &str = "\
A row begins with OVERDUE, DUE or OK, the worst first, and ends with what is left: h in hours, c in\n\
cycles, d in days, - where the task has no such limit. DUE is where nothing is left, OVERDUE past\n\
the tolerance. A deferred defect has its last day, and the days left until then.\n\n\
Example:\n  office due fleet.db D-EABC 2024-02-01";

/// `forecast`.
pub(crate) const FORECAST: &str = "\
A row is the number of days until a task or a deferred defect is due, that day, and what is due, the\n\
soonest first. At 0 minutes and 0 cycles the aircraft stands, and days alone are used up.\n\n\
Example:\n  office forecast fleet.db D-EABC 2024-02-01 60 60 1";

/// `fleet`.
pub(crate) const FLEET: &str = "\
A row is one of `due`, with the registration behind OVERDUE, DUE or OK: the worst first, and of those\n\
that stand alike by registration, and then as in the list of the aircraft.\n\n\
Example:\n  office fleet fleet.db 2024-02-01";

/// `outlook`.
pub(crate) const OUTLOOK: &str = "\
A row is one of `forecast`, with the registration behind the day: the soonest first, and those of one\n\
day by registration. Each aircraft is taken to fly so many minutes and cycles a day.\n\n\
Example:\n  office outlook fleet.db 2024-02-01 30 60 1";

/// `aircraft`.
pub(crate) const AIRCRAFT: &str = "\
A row is the registration, kind, hours and cycles, the latest moment that is known of the aircraft,\n\
how many components are fitted to it and how many defects are open, by registration.\n\n\
Example:\n  office aircraft fleet.db";

/// `components`.
pub(crate) const COMPONENTS: &str = "\
A row is the serial number, part, hours and cycles, the latest moment that is known of the component,\n\
and the registration and position that it is fitted to, or - twice, by serial number.\n\n\
Example:\n  office components fleet.db";

/// `deferred`.
pub(crate) const DEFERRED: &str = "\
A row is one of `limits`, with the registration behind OVERDUE, DUE or OK: the soonest last day\n\
first, and those of one day in the order in which they were entered.\n\n\
Example:\n  office deferred fleet.db 2024-04-06";

/// `limits`.
pub(crate) const LIMITS: &str = "\
A row is a deferred defect, by its document, category and item of the minimum equipment list: the\n\
day it was found, the days of its extension, its last day and the days left, the soonest first.\n\n\
Example:\n  office limits fleet.db D-EABC 2024-04-10";

/// `enter`.
pub(crate) const ENTER: &str = "\
A command is an object with `do`: add-aircraft, add-component, opening, sector, fit, remove,\n\
release, defer or extend, and its keys, which docs/DEFINITIONS.md has. ENTRIES has at most 10000, in\n\
8388608 bytes. The reply is `accepted N` or `already N`, N being the entry, or `refused NUMBER`.\n\
Each is entered by itself; where ENTRIES has a fault none is.\n\n\
Example:\n  office enter fleet.db examples/fleet.json";

/// `import`.
pub(crate) const IMPORT: &str = "\
CSV begins with the line tail,page,line,off,on,cycles and has at most 100000 rows, in 8388608 bytes.\n\
A sector is page 1 to 999999, line 1 to 99, 1 to 1440 minutes from off to on, and 1 to 50 cycles.\n\
`row N` stands before each reply; a row that states no sector has `fault NUMBER`, and the others are\n\
entered all the same.\n\n\
Example:\n  office import fleet.db examples/april.csv";

/// `programme`.
pub(crate) const PROGRAMME: &str = "\
TOML states the kind of aircraft, the revision, one above the last, and 1 to 500 tasks, each with\n\
its limits in hours, cycles and days; docs/DEFINITIONS.md has its keys.\n\n\
Example:\n  office programme fleet.db AMP-C172-1 examples/c172-1.toml";

/// `serve`.
pub(crate) const SERVE: &str = "\
Each connection asks once: POST /entries, /programmes/DOC or /sectors, or GET /aircraft/TAIL/life,\n\
/due/DAY, /limits/DAY or /forecast/DAY/DAYS/MINUTES/CYCLES. It answers what the words print;\n\
docs/DESK.md has the statuses. Behind the last connection it prints `served COUNT`.\n\n\
Example:\n  office serve fleet.db 8043 1";

/// `verify`.
pub(crate) const VERIFY: &str = "\
It prints `verified`, or `differs` with status 4 where a row can be read and is not what the commands\n\
of the book give. A row that can't be read, or that no command gives, is a fault, with its table.\n\
All is read, which takes memory and time as the book is long.\n\n\
Example:\n  office verify fleet.db";

/// `migrate`.
pub(crate) const MIGRATE: &str = "\
It prints `point LAYOUT STEP MARK`, where step and mark are 0 once the move is done. Each commit\n\
leaves the same book, so a move may be stopped at any time and goes on with the next word; every\n\
other word first moves a file to its end. With 0 for STEPS nothing is moved.\n\n\
Example:\n  office migrate fleet.db 0";

/// `init-old`.
pub(crate) const INIT_OLD: &str = "\
FILE is new or empty. It gets the commands that are accepted, in one commit, in layout 1, the first\n\
that files had: to try a move on, or to hand records to an older program. ENTRIES is as for `enter`.\n\n\
Example:\n  office init-old old.db examples/fleet.json";

/// `explain`.
pub(crate) const EXPLAIN: &str = "\
WHAT is the number of a refusal, as 41, the number of a fault of an input file, as 63, or the word of\n\
a fault of the program, as `store`; where more stands behind it, the number or the word alone. No\n\
file is opened. docs/REFUSALS.md has more, transcripts/tour.md a first session.\n\n\
Example:\n  office explain 41";
