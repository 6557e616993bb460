// The text of `--help` on the program's commands.

// A command: its name, what it does, and its faults.
pub(crate) struct Usage<'a> {
    pub(crate) name: &'a str,
    pub(crate) about: &'a str,
    pub(crate) faults: &'a str,
}

// An argument that has to be there: its name, and what it is.
pub(crate) struct Argument<'a> {
    pub(crate) id: &'a str,
    pub(crate) help: &'a str,
}

pub(crate) const ABOUT: &str = "\
Writes luminaire data into memory bank 1 of DALI control gear, over a link (drive); \
checks orders, and runs them on simulated units";

pub(crate) const TOP_HELP: &str = "\
A file named - is standard input; not for `drive` and `verify`, which have the answers there.
`dali_bench --version`, or `-V`, alone prints the version, and the logic that it is proved with.";

pub(crate) static CHECK: Usage<'static> = Usage {
    name: "check",
    about: "Checks a file of orders and prints the bytes that each would write",
    faults: "\
An order is an object of these keys: `order`, `unit`, and at least one of the others.
  order           number  0 to 18446744073709551615
  unit            number  0 to 63, the unit's short address
  gtin            string  8, 12, 13 or 14 digits, the last of them the check digit
  identification  string  16 hexadecimal digits
  year            number  0 to 99
  week            number  1 to 53
  input_power     number  0 to 65534, in W
  min_dim_power   number  0 to 65534, in W
  min_voltage     number  0 to 65534, in V
  max_voltage     number  0 to 65534, in V, and not under min_voltage
  light_output    number  0 to 16777214, in lm
  cri             number  0 to 100
  cct             number  0 to 65533, in K
  distribution    number  0 to 254
  colour          string  1 to 24 characters, each from space to ~
  luminaire       string  1 to 60 characters, each from space to ~
A number is whole, with no sign, fraction or exponent. From gtin on each may be null, for unknown.
Faults of an order: 1 Unit (short address over 63), 2 Kind (value of another kind),
3 Range (number out of range), 4 Gtin (length or check digit), 5 Text (length or character,
or no 16 hexadecimal digits), 7 Voltage (minimum over maximum), 8 Empty (no field),
9 Shape (no object, or order or unit is missing or no whole number), 10 Key (unknown key).
Faults of the file: 11 Json, 12 Document (no array), 13 TooBig (over 16777216 bytes),
20 Memory, 21 File (can't be opened or read).
With --journal one line behind each accepted order tells what the writer with that journal would reply:
`known kept C NAME` (and `closed` where the unit was left open and closed since), `known reused`, `known begun`
(the next drive goes on with it), `new`, or `full`; the last line is `free N`, the first number above all there.
Neither a journal nor a link is touched. Faults of JOURNAL: those of `journal`; with --older as of `drive`.
Exit status: 0 all accepted, 1 something refused, 2 a file, the memory or the output failed.",
};

pub(crate) const CHECK_JOURNAL_HELP: &str =
    "A writer's journal: tells of each order what it says of it, and which number is free";

pub(crate) const CHECK_OLDER_HELP: &str =
    "With --journal: an older journal, as for `drive`. May be given again";

pub(crate) static CHECK_ORDERS: Argument<'static> = Argument {
    id: "ORDERS",
    help: "A JSON array of orders; - for standard input",
};

pub(crate) static RUN: Usage<'static> = Usage {
    name: "run",
    about: "Runs the events of a scenario on simulated units and prints what happened",
    faults: "\
Keys of a unit: address, bank, fixed, dtr; of a fate: times, lost, answer_lost, refuse;
of an event: submit with or without moment, steps, stop or power.
Faults of the file: 11 Json, 12 Document (an unknown key, or another form), 13 TooBig (over 16777216
bytes, 20000 events or 20000 fates), 20 Memory, 21 File (can't be opened or read).
Faults of a unit: 1 Address (over 63), 2 Size (not 17 to 255 bytes, or 00h isn't the last location),
3 Fixed (locations that don't rise, below 03h or past the last);
of the units together: 5 SameAddress.
Faults of a submitted order: as of `check`. Fault of the run: 1 Limit (0 or over 100000).
Exit status: 0 it ran, 1 something refused, 2 a file, the memory or the output failed.",
};

pub(crate) static RUN_SCENARIO: Argument<'static> = Argument {
    id: "SCENARIO",
    help: "A JSON object of limit, units, fates and events; - for standard input",
};

pub(crate) const RUN_FRAMES_HELP: &str = "Prints a line for each frame, with its answer";

pub(crate) static FRAME: Usage<'static> = Usage {
    name: "frame",
    about: "Prints what the word of a forward frame means",
    faults: "\
Faults: 14 Hex (not four hexadecimal digits), 20 Memory.
Exit status: 0 printed, 1 refused, 2 the memory or the output failed.",
};

pub(crate) static FRAME_HEX: Argument<'static> = Argument {
    id: "HEX",
    help: "Four hexadecimal digits, as A303",
};

pub(crate) static SHOW: Usage<'static> = Usage {
    name: "show",
    about: "Prints what the bytes of a memory bank say",
    faults: "\
Faults of the file: 13 TooBig (over 4096 bytes of text, or over 255 bytes of the bank),
14 Hex (no hexadecimal digits, or an odd number of them), 20 Memory, 21 File (can't be opened or read).
Exit status: 0 printed, 1 refused, 2 a file, the memory or the output failed.",
};

pub(crate) static SHOW_DUMP: Argument<'static> = Argument {
    id: "HEXFILE",
    help: "The bytes as hexadecimal digits, location 00h first; - for standard input",
};

pub(crate) static JOURNAL: Usage<'static> = Usage {
    name: "journal",
    about: "Prints the records of a writer's journal, and how much of it counts",
    faults: "\
Faults of the journal, with the place of the record, counted from 0: 3 Record (no record stands there),
4 Sequence (the records before don't allow it), 5 Repeated (its order number was there),
6 Full (over 100000 orders); without a place 7 Header (the first byte is 44h, and no whole header stands there).
A record that is cut off at the end doesn't count, and is no fault.
Faults of the file: 13 TooBig (over 33554432 bytes), 20 Memory, 21 File (can't be opened or read).
Exit status: 0 printed, 1 refused, 2 a file, the memory or the output failed.",
};

pub(crate) static JOURNAL_FILE: Argument<'static> = Argument {
    id: "FILE",
    help: "The journal's bytes; - for standard input",
};

pub(crate) const JOURNAL_UPDATES_HELP: &str =
    "Prints the bytes of each begun order too, as `check` prints them";

pub(crate) static FIELDS: Usage<'static> = Usage {
    name: "fields",
    about: "Prints the fields of an order, as JSON",
    faults: "\
An array of one object a line, by rising location, each with these keys:
  bytes        number  how many bytes the field has in memory bank 1
  first        number  its first location there
  form         string  gtin, identification, number or text
  help         string  a few words on it
  key          string  its key in an order
  least, most  number  the range of a number, or of the count of a text's characters; else null
  unit         string  W, V, lm or K; null where there is none
  unknown      string  the bytes that stand for unknown, in hexadecimal
Exit status: 0 printed, 2 the memory or the output failed.",
};

pub(crate) static DRIVE: Usage<'static> = Usage {
    name: "drive",
    about: "Carries out a file of orders over a link: standard output has the frames, standard input the answers",
    faults: "\
Standard output has a line for each frame, four hexadecimal digits. For each, one line is read from standard
input: two hexadecimal digits, or -- for no answer. Replies and faults go to standard error.
Nothing is sent where an item is refused, with the faults of `check`, or where a file has a fault:
of ORDERS 11 Json, 12 Document, 13 TooBig (over 16777216 bytes), of JOURNAL 13 TooBig (over 33554432 bytes)
and those of `journal`; 20 Memory, 21 File (can't be opened, read, written anew or synced, another drive has
the journal, or with --require-journal there is none).
A journal that is empty or of version 1 is written anew, in version 2, before anything is sent.
With --older the named journals are read first: 15 Older (one is no journal, isn't at rest, or has an order
number that another one or JOURNAL has), 20 Memory, 21 File.
With --follow ORDERS has JSON line by line: an order, or {\"submit\": ORDER, \"moment\": M}. Each line is carried out
before the next is read. A refused one (with the faults of `check`, 11 Json, 12 Document, 13 TooBig: over 16384
bytes, 20 Memory) is told by its number and changes nothing. It ends where the stream does.
Faults of a drive: 1 Journal (can't be written), 2 Link (can't be read or written), 3 Line (no answer),
4 End (no more answers), 6 TooLong (over 8 bytes in a line), 7 Out (standard error can't be written).
After a fault, a kill or a loss of power run the same command again: it goes on from the journal.
A report that can't be written is told and doesn't stop the drive; the status is then 2.
Exit status: 0 each order has its reply, whatever it says, 1 something refused, or 3 Line, 4 End, 6 TooLong,
or with --require-done or --require-now an order isn't done so, or none was replied to,
2 a file, the memory, the link, the report or the output failed.",
};

pub(crate) static LINK_ORDERS: Argument<'static> = Argument {
    id: "ORDERS",
    help: "A JSON array of orders, as for `check`",
};

pub(crate) const DRIVE_JOURNAL_HELP: &str =
    "The writer's journal, which is made where there is none";

pub(crate) const DRIVE_MOMENT_HELP: &str =
    "A whole number that is kept with each order that begins, as the seconds since 1970";

pub(crate) const DRIVE_FOLLOW_HELP: &str =
    "Takes ORDERS as a stream, such as a named pipe, and carries out each line before it reads the next";

pub(crate) const DRIVE_SHORT_HELP: &str =
    "Takes fewer frames, down to a third: a write goes on from the one before, and bytes are read back in rows";

pub(crate) const DRIVE_DONE_HELP: &str =
    "Ends with 1 where the last reply of some order isn't `kept 0 Done`";

pub(crate) const DRIVE_NOW_HELP: &str =
    "The same, and where it isn't this drive that ended the order";

pub(crate) const DRIVE_THERE_HELP: &str =
    "Makes no journal: it has to be there, as from the second order on";

pub(crate) const PROGRESS_HELP: &str =
    "Shows on standard error, for a person, how far it is, and at the end what it came to";

pub(crate) const DRIVE_REPORT_HELP: &str =
    "A file to which a line of JSON is added for each order at its last reply";

pub(crate) const DRIVE_OLDER_HELP: &str = "\
A journal that is full or retired, and at rest: its orders get their kept replies. May be given again";

pub(crate) static READ: Usage<'static> = Usage {
    name: "read",
    about: "Reads memory bank 1 of a unit over a link: standard output has the frames, standard input the answers",
    faults: "\
The line of the unit goes to standard error: `unit U bytes N`, or `unit U silent`, and then HEXFILE stays as
it is. Nothing is written to the unit, and it is not write-enabled.
Faults: 2 Link (can't be read or written), 3 Line (no answer), 4 End (no more answers), 6 TooLong (over 8 bytes
in a line), 7 Out (standard error can't be written), 20 Memory, 21 File (HEXFILE can't be written).
The same command begins anew.
Exit status: 0 read, 1 silent, or 3 Line, 4 End, 6 TooLong,
2 the file, the memory, the link or the output failed.",
};

pub(crate) const READ_UNIT_HELP: &str = "The unit's short address, 0 to 63";

pub(crate) const READ_BANK_HELP: &str =
    "Where the bytes go, as `show` reads them: it takes its name once it is whole";

pub(crate) static VERIFY: Usage<'static> = Usage {
    name: "verify",
    about: "\
Compares units with a file of orders over a link: standard output has the frames, standard input the answers",
    faults: "\
Each order has a line on standard error: `order N unit U` and then `same`, `other LL BB` (the first location
that holds another byte, and that byte), `short`, `format` or `silent`.
Nothing is written to a unit, and none is write-enabled.
Nothing is sent where an item is refused, with the faults of `check`, or where ORDERS has a fault: 11 Json,
12 Document, 13 TooBig (over 16777216 bytes), 20 Memory, 21 File. Faults of the link as of `read`.
A report that can't be written is told and doesn't stop the comparison; the status is then 2.
Exit status: 0 all are the same, 1 another ends, there are no orders, something refused, or 3 Line, 4 End,
6 TooLong,
2 a file, the memory, the link, the report or the output failed.",
};

pub(crate) const VERIFY_REPORT_HELP: &str =
    "A file to which a line of JSON is added for each order with what was found";

pub(crate) static SCAN: Usage<'static> = Usage {
    name: "scan",
    about: "Looks which units answer over a link: standard output has the frames, standard input the answers",
    faults: "\
A line for each unit that answers, on standard error: `unit U last LL`, its last location in hexadecimal, with
--gtin and ` gtin G identification I` behind it, as `show` prints both, where its bank reaches them; and then
`units K`.
Nothing is written to a unit, and none is write-enabled. Faults of the link as of `read`.
Exit status: 0 all were asked, 1 for 3 Line, 4 End, 6 TooLong, or a unit that is named twice,
2 the memory, the link or the output failed.",
};

pub(crate) static ADDRESS: Usage<'static> = Usage {
    name: "address",
    about: "\
Gives units short addresses over a link: standard output has the frames, standard input the answers",
    faults: "\
Each unit without a short address gets one: the named ones in their order, or else the lowest that is free.
Lines go to standard error: `unit A random RRRRRR` for each unit that has one of them then, read twice at A;
`shared A` where several answer at A; and last `given G missing M shared S`, M being 1 where some unit has none.
`open: units answer searches for up to 16.5 minutes` stands before it where the search may not be over in each
unit: run the same command again, or wait.
No memory bank is written, and no unit is write-enabled. Run it while no order is at work: an order goes to
whichever unit has the short address. It keeps no state: after a kill the same command goes on.
--count tells `apart K` where it counted K units, each with a short address of its own, or `shared A` for each that
several have, or `unclear`; then the line that begins with `given 0`.
Refused before a frame is sent: a UNIT that is named twice, two of --all, --list and --count, UNIT beside --list or
--count, and with --journal a journal that doesn't stand idle or is in use: 15 Older, 20 Memory, 21 File. Where a unit
has a named short address already nothing is given: only queries were sent. Faults of the link as of `read`.
Exit status: 0 none is missing, shared or left open, and a count is clear, 1 else, something refused, or 3 Line,
4 End, 6 TooLong, 2 a file, the memory, the link or the output failed.",
};

pub(crate) const ADDRESS_UNITS_HELP: &str =
    "The short addresses that are given, 0 to 63, each once, in this order; the lowest free ones where none is named";

pub(crate) const ADDRESS_ALL_HELP: &str =
    "Takes all short addresses away first, one unit after the other, and gives them anew";

pub(crate) const ADDRESS_LIST_HELP: &str =
    "Gives none: tells who answers at each of the 64 short addresses, and whether a unit has none";

pub(crate) const ADDRESS_COUNT_HELP: &str =
    "Gives none: counts all units by random addresses that they draw anew, and tells whether each has its own";

pub(crate) const ADDRESS_JOURNAL_HELP: &str =
    "A writer's journal that has to stand idle; no drive can use it meanwhile";

pub(crate) const SCAN_UNITS_HELP: &str =
    "The short addresses that are asked, 0 to 63, each once; all where none is named";

pub(crate) const SCAN_GTIN_HELP: &str =
    "Reads the GTIN and the identification number of each unit that answers too, in 20 frames more";
