//! The texts of help.

pub(crate) const A1_HELP: &str = "Formulas are written as in Calc and Excel: =A1*2, =SUM(A1:B3,7)";

pub(crate) const STRICT_HELP: &str =
    "Ends with status 1 where an answer is a refusal; with --stops, where a text is refused";

pub(crate) const RUN_JSON_HELP: &str =
    "Writes each answer as a line of JSON, as {\"number\":0,\"ok\":\"done\",\"process\":0}";

pub(crate) const JSON_HELP: &str =
    "Writes one line of JSON, as {\"rows\":[[\"3\",\"\"],[\"\",\"\"]]}";

pub(crate) const ABOUT: &str = "The calculator of a shared spreadsheet that survives crashes";

pub(crate) const RUN_ABOUT: &str =
    "Runs a script, from a file or standard input, and writes its answers to standard output";

pub(crate) const REPORT_ABOUT: &str =
    "Reads a grid of texts, from a file or standard input, and writes its values to standard output";

pub(crate) const EXPLORE_ABOUT: &str = "Goes through all orders of the steps of a script's calls";

pub(crate) const SUMMARY_HELP: &str =
    "Writes what may be reported after the orders, and how often, in place of the outcomes";

pub(crate) const TRACE_ABOUT: &str = "Draws the run of a script, as one SVG on standard output";

pub(crate) const BRIEF_STOPS_HELP: &str =
    "With --stops: one line for steps that follow each other and come to the same";

pub(crate) const BRIEF_HELP: &str =
    "Draws no more than what decides, in at most 850 pixels: for a page of text";

pub(crate) const SERVE_ABOUT: &str =
    "Serves a sheet to clients, each a session of JSON lines over a connection";

pub(crate) const CONNECT_ABOUT: &str =
    "Speaks to a server: lines as set A1 =1+2, report and last in, answers as of run out";

pub(crate) const RUN_HELP: &str = "\
Commands, one a line. P is a process, from 0; C is a cell, as A1.
  sheet COLUMNS ROWS PROCESSES   a new sheet; only as the first command; without it 2 2 2
  layout N                       makes it in layout 1, of shorter texts, or in 2; first, or after sheet
  set P C TEXT                   an edit: sets the text of a cell
  work P C                       works on a cell that is marked, and gives it its value
  settle P                       works until no cell is marked
  recalc P                       the same, first in the order of the references
  report P                       shows all values as CSV
  recover P                      tells, after a crash or a stop, whether its last edit counts
  migrate P                      takes a sheet of layout 1 to layout 2, where all processes have stopped

The same in parts, with what may come between:
  begin P set C TEXT             begins an edit; so do begin P work C, begin P show (a report),
                                 begin P recover and begin P migrate for the other calls
  step P                         makes one step of its call
  run P to POINT                 makes steps until its call has passed the point
  run P                          makes steps to the end of its call
  stop P                         stops it: its call is lost
  crash                          stops all; what is not persisted is lost
  evict PLACE                    persists a word
  peek C                         shows the state, the value and the text of a cell
  word PLACE                     shows the cached and the persisted number of a word

Points, in order:
  an edit       written announced indexed helped swung kept marked answered
  work          held stored valued spread cleared
  a recovery    freed kept marked answered
  a migration   copied switched
Places (N is one of the edits of P, from 0; PART is from 0):
  head C, mark C, value C, kind C, index C PART,
  announce P, header P N, text P N PART (layout 1), newtext P N PART (layout 2), done P PART,
  version

A text is empty, a whole number or a formula, as =[.A1]*2 or =SUM([.A1:.B3];7):
a reference is [.A1], a range [.A1:.B3], and ; parts arguments. With --a1 they are written as in
Calc and Excel, =A1*2 or =SUM(A1:B3,7): brackets, and a text over 240 bytes with them, end the
script at their line, which is named; what else is refused is named by its byte in the text with brackets.
Functions: SUM MIN MAX COUNT AND OR of one argument or more, ranges among them;
ABS and NOT of one; MOD and QUOTIENT of two; IF of two or three.
Limits: 26 columns, 64 rows, 1024 cells; 8 processes, 256 edits of each;
240 bytes a text (120 in layout 1), 512 a line, 1048576 a script.
Empty lines and lines that begin with # are skipped. The answers come when the input has ended.

With --stops its own answers are not written. After each of its steps, or of those from --from
to --to, a copy of the sheet crashes, and what is answered then is written: stop K, then the lines
of recover for each process, of settle 0 and of report 0. With --brief steps that follow each other and come to the
same are one line: stops 1-8: and these lines, parted by bars.

With --json each answer is one line of JSON, with sorted keys: \"ok\" has the word of the answer, \"process\" its process; a
report has \"rows\", and a refusal \"code\" and \"error\" in the place of \"ok\". With --stops it is refused.

With --strict any answer P refused CODE NAME counts as a fault, once the script has ended: all answers are written, and
standard error says how many there are. What is overtaken, not enabled or out of memory is no refusal.

Examples:
  printf 'set 0 A1 =1+2\\nsettle 0\\nreport 0\\n' | dsheet run
  printf 'set 0 A1 7\\n' | dsheet run --stops --brief
  printf 'set 0 A1 =B1+1\\nsettle 0\\nreport 0\\n' | dsheet run --a1
  printf 'set 0 A1 =1+2\\nsettle 0\\nreport 0\\n' | dsheet run --json
  dsheet run budget.script

Exit status: 0 ended; 1 a fault in a line, which is named, or with --strict a refusal; 2 wrong words on the
command line; 3 a failed read or write, or a script over 1048576 bytes; 4 no memory; 141 nobody reads the answers.";

pub(crate) const REPORT_HELP: &str = "\
The grid is CSV without a heading line: a record is a row, a field the text of a cell.
A text is empty, a whole number or a formula, as =[.A1]*2 or =SUM([.A1:.B3];7):
a reference is [.A1], a range [.A1:.B3], and ; parts arguments. With --a1 they are written as in
Calc and Excel, =A1*2 or =SUM(A1:B3,7) (a field with a comma stands in quotes), and brackets are refused.
Functions: SUM MIN MAX COUNT AND OR of one argument or more, ranges among them;
ABS and NOT of one; MOD and QUOTIENT of two; IF of two or three.
Limits: 26 columns, 64 rows, 1024 cells; 240 bytes a text, 1048576 the grid.
What is written is the values, as CSV. With --labels a field is written as it is, and counts as blank, that begins
neither as a number nor as a formula does (=, a digit, or these after spaces, tabs, signs or points): headings and names.
With --json what is written is one line of JSON, with the values, and labels, as texts; a label has to be UTF-8.
Nothing is written where a fault is reported:
  empty grid        no record
  bad csv           a record has another number of fields than the first
  grid too large    more columns, rows or cells than the limits
  cell A1: KIND N   the text of this cell is refused at its byte N, from 0; with --a1 at that of the text with brackets;
                    below it stand the line and the column of the field and its text; all such fields are reported

Examples:
  printf '1,=[.A1]*20\\n2,=SUM([.A1:.A2])\\n' | dsheet report
  printf '1,=A1*20\\n' | dsheet report --a1
  dsheet report budget.csv --labels --a1
  dsheet report budget.csv --json
  printf 'Rent,900\\nFood,350\\nAll,=SUM(B1:B2)\\n' | dsheet report --labels --a1

Exit status: 0 ended; 1 a fault in the grid; 2 wrong words on the command line;
3 a failed read or write, or a grid over 1048576 bytes; 4 no memory; 141 nobody reads the values.";

pub(crate) const EXPLORE_HELP: &str = "\
The script begins calls and does not finish them, as \"begin 0 set A1 1\" and \"begin 1 work A1\". All orders of their
steps are carried out; after each end every process recovers, and the sheet is settled and reported by process 0.
What is written is how many states and orders there are, and each different outcome once: how many orders lead to it,
what is wrong with it, if anything is, and a shortest script, with what \"dsheet run\" answers it. A state that was seen
before is not gone through again. With --summary it is how many states, orders, outcomes and endings there are, and each
ending, which is what is reported: how many orders have it, whether with a crash, and which outcomes.

Examples:
  printf 'begin 0 set A1 1\\nbegin 1 set A1 2\\n' | dsheet explore --crashes --summary
  printf 'begin 0 set A1 1\\nbegin 1 set A1 2\\n' | dsheet explore --crashes --show 3

Exit status: 0 all orders were gone through, and nothing is wrong; 1 something is wrong with an outcome, or a fault in
a line, which is named; 2 wrong words on the command line; 3 a failed read or write, a script over 1048576 bytes, or
more states than --most says, of which those that were found are written; 4 no memory.";

pub(crate) const TRACE_HELP: &str = "\
Time runs down. Each process has a lane with its calls and steps, each word that changes a column with both its sides:
filled bars are what processes see, hatched ones what a crash leaves. Flushes, write-backs and evictions are arrows, a
crash is a line across, and what it takes back is struck out. Titles, on hover, say what a word means.

With --brief a row is kept where a call begins, is answered or refused, at stops and crashes, where a head changes, and
where an announcement or a mark changes on the side that a crash leaves. These words alone have columns, as many as have
room; how many have none is said. A crash says whose edits it takes back.

Examples:
  dsheet trace examples/taken_back > run.svg
  dsheet trace examples/taken_back --brief > brief.svg

Exit status: 0 drawn; 1 a fault in a line, which is named; 2 wrong words on the command line; 3 a failed read or write,
a script or a picture over 1048576 bytes, or more than 1000 events; 4 no memory. Nothing is written unless it is drawn.";

pub(crate) const SERVE_HELP: &str = "\
Listens at --listen for sessions, at --http for HTTP, or at both. Serves as many connections as --sessions says, each a
session in its thread, and ends when they have ended; with both, those of --listen count. With --forever it serves on until a line \"stop\" comes on standard input: the sessions that are there then answer what they
have read. The last processes are the workers': they go round the cells and work on those that are
marked; no session can join them. Once it listens it says so on standard error, with its port.

Without --store the sheet goes with the server. With it the sheet is that of a file, which is made where there is none:
no answer leaves before the edits that were made before it are kept there. Kill the server, start it with the same words, and ask: each edit that was
answered done is there, and a join tells of the last one. A file that is there has its columns, rows and processes; others that are asked for are refused.
After 240 edits of a process the server goes over to a new sheet with the same texts; their numbers go on.

Whoever reaches the address may join a process and edit, so only addresses of this machine are listened on, unless there
is a token, or --open is given. With --token-file a join has to have the first line of that file as \"token\", else it is
refused: 20 denied. Nothing is encrypted: put an SSH tunnel, or a proxy with TLS, before it.

With --http it answers HTTP over the same sheet: a page for people at /, POST /edits, GET /sheet, POST /lines, and
sessions over WebSocket at /session. Requests of pages of elsewhere are refused; with --token-file POST /edits and
GET /sheet need \"authorization: Bearer TOKEN\".

The protocol: a line of JSON in, a line of JSON out, before the next line is read. Cells are texts, as \"A1\".
  {\"op\":\"join\",\"process\":0}                   takes a process, and tells of its last edit, as last does
  {\"op\":\"set\",\"cell\":\"A1\",\"text\":\"=1+2\"}      an edit
  {\"op\":\"report\"}                             works until no cell is marked, and reports all values
  {\"op\":\"last\"}                               tells whether the process's last edit counts
are answered, on a new sheet (a join with \"told\":N, where edit N was answered done and is not there, has \"lost\":true):
  {\"last\":null,\"ok\":\"join\",\"process\":0}
  {\"number\":0,\"ok\":\"done\"}
  {\"ok\":\"settled\",\"rows\":[[\"3\",\"\"],[\"\",\"\"]]}
  {\"last\":{\"cell\":\"A1\",\"number\":0,\"outcome\":\"done\"},\"ok\":\"last\"}
A join of \"process\":\"any\" takes one that nobody has. {\"op\":\"undo\",\"cell\":\"A1\"} is an edit to the text that the cell had
before its last edit. Three calls need no join: {\"op\":\"view\"}, which is as report; {\"op\":\"get\",\"cell\":\"A1\"}, which tells of
a cell and its last edit; {\"op\":\"history\",\"from\":0}, which lists the edits that count, from a place on, at most 100.
A set may also be answered \"overtaken\", with the edit that has overtaken it: it does not count. A report may be
answered \"unsettled\", with a word of the sheet that was not at rest: others were editing. Ask again.
Refusals have a code: 1 not-json, 2 unknown-op, 3 bad-field, 4 process-taken, 5 line-too-long (over 4096
bytes), 6 not-joined, 7 already-joined, 11 text, 13 stopped, 14 records-full (no room; a server goes over to
a new sheet before), 15 no-memory, 20 denied (without the token), 21 key-reused (by another edit), 22 no-edit
(of that cell), 23 no-history. They change no text.
A session is of at most 1048576 bytes; at its end its process is free again. What ends a connection is said as its
last line: 16 busy (as many sessions as --at-once), 17 too-long, 18 idle (nothing said or taken for --idle seconds),
19 where the client speaks HTTP or TLS.

Example:
  dsheet serve --listen 127.0.0.1:8080 --store sheet.db --forever &
  printf 'set A1 =1+2\\nreport\\n' | dsheet connect 127.0.0.1:8080
  dsheet serve --http 127.0.0.1:8081 --forever &
  curl -d '{\"cell\":\"A1\",\"text\":\"=1+2\"}' 127.0.0.1:8081/edits

Exit status: 0 ended; 1 a store that is another sheet's, or unsound; 2 wrong words on the command line; 3 the address
can not be listened on, or no connection taken from it, or the store not be opened or written, or its file was
removed or replaced; 4 no memory.
Each session that does not end with its client is one line on standard error, and so is what all came to.";

pub(crate) const CONNECT_HELP: &str = "\
Joins the process, and tells what became of its last edit, as recover does in a script. Then each line of standard
input is one call: set CELL TEXT, undo CELL, report, view, get CELL, history FROM, outcome KEY, or last. Without --process
any process that nobody has is joined, by the first line that needs one: view, get, history and outcome need none. Empty
lines and lines that begin with # are skipped. Where the connection breaks, the process is joined anew, and what is
answered then says whether the edit under way counts; an edit without a key is never sent twice. Where the server then has
lost an edit that it had answered done, as with a file that was cut, this is said, and ends the client with status 3.
With --key PREFIX the sets of the input get the keys PREFIX-0, PREFIX-1 and so on, by their order. An edit with a key
counts once at most: where the connection breaks, it is sent again, and the same input may be given again to finish it.
With --a1 a text is written as in Calc and Excel, as =A1*2, and is sent as =[.A1]*2. On a terminal there are prompts, help
lists the lines, quit ends, values stand in a table, and a line that is no call ends nothing.

Examples:
  printf 'set A1 =1+2\\nreport\\n' | dsheet connect 127.0.0.1:8080 --process 1
  printf 'set A1 7\\noutcome week-48-0\\n' | dsheet connect 127.0.0.1:8080 --key week-48

Exit status: 0 ended; 1 a line that is no call, or a join that is refused; 2 wrong words on the command line;
3 no connection, a failed read or write, no answer in time, none that a server gives, or a lost edit; 4 no memory.";

pub(crate) const CHECK_ABOUT: &str =
    "Reads a store, and says what it has, or which line is unsound";

pub(crate) const CHECK_HELP: &str = "\
Reads each line of the store, makes its edit on a new sheet, and says how many edits each process has made of that
sheet, of the 256 that it may make, and how many were made in all. Nothing in the file is believed: a line whose edit is
not answered done is a fault. The files are read alone, also while a server has the store open.

Example:
  dsheet check sheet.db

Exit status: 0 sound; 1 a line that can not be followed, or another database; 2 wrong words on the command line;
3 the file can not be read; 4 no memory.";

pub(crate) const LOG_ABOUT: &str =
    "Lists the edits of a store, oldest first, or shows its sheet as it was";

pub(crate) const AT_HELP: &str =
    "The texts of the sheet after its first N edits, as CSV; 0: the list";

pub(crate) const LOG_VALUES_HELP: &str = "With --at: the values in place of the texts";

pub(crate) const LOG_HELP: &str = "\
Each edit that counts is one line: its place in the list, from 1; its process, and its number as the process's client
counts it; its cell, and its text. A server goes over to a new sheet after 240 edits of a process, as compact does, and
import --csv begins with texts: then the list begins with the texts that the sheet began with, and - stands for the process
and the number of each, since these are no edits of a client. A first line, which begins with #, says how many they are.
What was before that is not kept. With --cell only the edits of that cell are listed.

With --at the texts of the sheet are written, as they were after the first N lines of the list, or the values with
--values; with --cell those of the cell alone. A line feed within a text is white space, and the list has it as a space.

Examples:
  dsheet log sheet.db --cell A1
  dsheet log sheet.db --at 12 | dsheet report

Exit status: as of check; 2 also of a cell that the sheet has not; 3 also where standard output can not be written;
141 nobody reads it.";

pub(crate) const EXPORT_ABOUT: &str =
    "Writes the lines of a store to standard output: a script, which run reads";

pub(crate) const EXPORT_CSV_HELP: &str = "The texts of the cells as CSV, which report reads";

pub(crate) const EXPORT_VALUES_HELP: &str = "The values of the cells as CSV, as report writes them";

pub(crate) const EXPORT_JSON_HELP: &str =
    "The texts, or with --values the values, as one line of JSON, as report --json writes it";

pub(crate) const EXPORT_HELP: &str = "\
With --csv the texts of the cells are written, as CSV, which report and import --csv read, or the values with --values;
with --json in the place of --csv as one line of JSON, as {\"rows\":[[\"3\",\"\"],[\"\",\"\"]]}.

Of a store that is damaged nothing is written, but with --until what can be saved: the lines before the one that check
names. Standard error says from which line on they are left out. Lines are counted as in the store, with those of sums,
which are not written. Where a sum is wrong, one of the lines since the sum before it was changed.

Example:
  dsheet export sheet.db > sheet.script
  dsheet run < sheet.script
  dsheet export sheet.db --csv | dsheet report
  dsheet export damaged.db --until 65535 | dsheet import saved.db

Exit status: as of check; 3 also where standard output can not be written; 141 nobody reads it.";

pub(crate) const IMPORT_ABOUT: &str =
    "Makes a store of the lines on standard input, as export writes them";

pub(crate) const IMPORT_CSV_HELP: &str = "Standard input is CSV of texts, as report reads it";

pub(crate) const IMPORT_HELP: &str = "\
The first line is \"sheet COLUMNS ROWS PROCESSES\", each other one \"set PROCESS CELL TEXT\", a comment, or empty.
Every edit is made on a new sheet, and has to be answered done. There must be no file of that name; where the import fails,
none stays.
With --a1 formulas are written as in Calc and Excel, as =A1*2, and are kept as =[.A1]*2.

With --csv the sheet has a row for each record and a column for each field, as report has it, without labels. Two
processes can be joined, which have made no edit. The texts are set by these, or where there are more than 256 by as many
processes, up to 8, that each sets 128 at most.

Examples:
  printf 'sheet 2 2 2\\nset 0 A1 =1+2\\n' | dsheet import sheet.db
  printf '1,=A1*20\\n' | dsheet import sheet.db --csv --a1

Exit status: as of check; 1 also of a grid with a fault, or where there is a file already; 3 also where standard input can
not be read, or is over 1048576 bytes.";

pub(crate) const COMPACT_ABOUT: &str =
    "Makes a new store whose edits give each cell the text that it has in an old one";

pub(crate) const COMPACT_HELP: &str = "\
The new store goes on where the old one has ended: one edit for each cell that has a text, by the processes in turn, and
what each process did before, so that its numbers go on. There must be no file of the new name; the old one stays.

Example:
  dsheet compact sheet.db next.db

Exit status: as of check; 1 also where there is a file already.";

pub(crate) const BACKUP_ABOUT: &str = "Makes a copy of a store, also while a server has it open";

pub(crate) const BACKUP_HELP: &str = "\
The copy has the lines that were committed at one moment: each edit that was answered done before the command began is
there. The files of the store are read alone. There must be no file of the copy's name; where the copy fails, none stays.

Example:
  dsheet backup sheet.db copy.db

Exit status: as of check; 1 also where there is a file already.";

pub(crate) const HELP: &str = "\
Examples:
  printf 'set 0 A1 =1+2\\nsettle 0\\nreport 0\\n' | dsheet run
  printf '1,=[.A1]*20\\n' | dsheet report
  dsheet serve --listen 127.0.0.1:8080";
