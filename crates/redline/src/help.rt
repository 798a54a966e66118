//! What the program tells of itself. The launcher of a checkout reads these texts too, each by the name of its constant.

use redl_app::Part;

/// The text of `--version`: the program's version, and the logic that it is proved with.
pub const VERSION: &str = "redline 1.0.0\nlogic dac8208d650f15bf\n";

/// The text of `--help`.
pub const HELP: &str =
    "Redline decides the tracked changes of a document by its reviewers' journals.

  redline check P               whether P can be decided, and how many changes
                                it has
  redline list P ITEM ..        lists the changes, with what the journals come
                                to on each
  redline report P ITEM ..      counts what each reviewer decided, and what
                                became of each author's changes
  redline page P ITEM ..        writes a page for a browser, in which a reviewer
                                decides
  redline decide P WHO ITEM ..  writes the journal of what the reviewer WHO
                                decides
  redline write P ITEM ..       writes P with the changes decided as its
                                reviewers agree
  redline text P --view V       writes the text of P: before its changes, after
                                them, or with signs
  redline left P --format F     tells what P still holds that a reader doesn't
                                see
  redline settle accept P       writes P with each change accepted
  redline settle reject P       writes P with each change rejected
  redline join J ..             writes the journal of several journals together
  redline resume P Q --journal J K  writes one journal for P; write made Q of it
                                by J, K decides Q
  redline sample N              decides a made-up document of N paragraphs, and
                                tells what came out

A command with --help, as redline list --help, tells of this command alone.

P is a document that Word saved as \"Word XML Document (*.xml)\"; redline-docx
  takes a .docx.
J is a journal: the text file of what reviewers decided.
ITEM is --lock AUTHOR, --lock-kind KIND or --lock-span SPAN: nobody decides
  these changes; for list, report, page and write also J, and for decide
  --journal J;
  for list also --format text, words, tab, json or full, and --only SHOWN, once
  or more;
  for report also --format text, json or table, and --by kind for each kind of
  an author's changes;
  for decide also --accept CHANGES, --reject CHANGES or --withdraw CHANGES, once
  at least, and --rank N, from 0 to 9: the highest rank that has a word on a
  change decides it;
  for page also --title TEXT, the name of the document, --rank N for what is
  decided there, and --no-pictures, which leaves the pictures out.
CHANGES is all, numbers:3,7-9, edit:12, \"author:Ann Gray\", kind:KIND, kind:GROUP
  or span:SPAN.
SHOWN is open, accept, reject or disputed, or else CHANGES: only these changes
  are listed.
GROUP is content, marks, rows, cells or props: all changes of text, of paragraph
  ends and so on.
KIND is ins, del, move, move-from, move-to, mark-ins, mark-del, mark-from,
  mark-to, row-ins, row-del, cell-ins, cell-del, run-props, para-props,
  sect-props, table-props, except-props, row-props or cell-props.
V is original, final, marked or bare; without --view the text is final, with
  each change accepted.
F is text or json; without --format it is text.
SPAN is two dates, the second not included:
  2026-11-01T00:00:00Z/2026-11-02T00:00:00Z.

Exit status: 0 done, 1 done and some entries refused, 2 usage, 3 package,
4 journal, 5 a file can't be read, 6 the output failed, 7 a limit is passed,
8 out of memory, 9 no sequence number is left for the reviewer, 11 Q is not what
P gives, 12 the sittings differ.

A whole round:
  redline list contract.xml
  redline decide contract.xml Ann --accept all --reject numbers:4 > ann.journal
  redline join ann.journal bob.journal > all.journal
  redline write contract.xml all.journal > decided.xml

The manual is man redline-manual, and docs/MANUAL.md in /usr/share/doc/redline.
";

const HELP_CHECK: &str = "redline check P

Tells whether P can be decided: sound and how many changes it has, or else what
is wrong with it.

P is a document that Word saved as \"Word XML Document (*.xml)\"; redline-docx
  takes a .docx.
";

const HELP_LIST: &str = "redline list P ITEM ..

Lists the changes of P, with what the journals come to on each.

ITEM is, in any order:
  J                     a journal
  --format FORMAT       text, words, tab, json or full; without it text
  --only SHOWN          only these changes are listed; once or more
  --lock AUTHOR         nobody decides the changes of AUTHOR,
  --lock-kind KIND      those of this kind,
  --lock-span SPAN      or those of this time
SHOWN is open, accept, reject or disputed, or else CHANGES.
CHANGES is all, numbers:3,7-9, edit:12, \"author:Ann Gray\", kind:KIND, kind:GROUP
  or span:SPAN.
KIND and GROUP are names of kinds, as ins, del or props: redline --help lists
  them.
SPAN is two dates, the second not included:
  2026-11-01T00:00:00Z/2026-11-02T00:00:00Z.
P is a document that Word saved as \"Word XML Document (*.xml)\"; redline-docx
  takes a .docx.
";

const HELP_REPORT: &str = "redline report P ITEM ..

Counts what each reviewer decided, and what became of each author's changes.

ITEM is, in any order:
  J                     a journal
  --format FORMAT       text, json or table; without it text
  --by kind             also each kind of an author's changes
  --lock AUTHOR         nobody decides the changes of AUTHOR,
  --lock-kind KIND      those of this kind,
  --lock-span SPAN      or those of this time
KIND is the name of a kind, as ins, del or run-props: redline --help lists them.
SPAN is two dates, the second not included:
  2026-11-01T00:00:00Z/2026-11-02T00:00:00Z.
P is a document that Word saved as \"Word XML Document (*.xml)\"; redline-docx
  takes a .docx.
";

const HELP_PAGE: &str = "redline page P ITEM ..

Writes a page for a browser, in which a reviewer decides and saves a journal.

ITEM is, in any order:
  J                     a journal
  --title TEXT          the name of the document
  --rank N              the rank of what is decided there, from 0 to 9
  --no-pictures         the page has no pictures
  --lock AUTHOR         nobody decides the changes of AUTHOR,
  --lock-kind KIND      those of this kind,
  --lock-span SPAN      or those of this time
KIND is the name of a kind, as ins, del or run-props: redline --help lists them.
SPAN is two dates, the second not included:
  2026-11-01T00:00:00Z/2026-11-02T00:00:00Z.
P is a document that Word saved as \"Word XML Document (*.xml)\"; redline-docx
  takes a .docx.
";

const HELP_DECIDE: &str = "redline decide P WHO ITEM ..

Writes the journal of what the reviewer WHO decides.

ITEM is, in any order, with one choice at least:
  --accept CHANGES      WHO accepts these changes
  --reject CHANGES      WHO rejects these changes
  --withdraw CHANGES    WHO takes back what WHO said on these changes
  --journal J           a journal with what WHO said before
  --rank N              from 0 to 9; the highest rank that has a word on a
                        change decides it
  --lock AUTHOR         nobody decides the changes of AUTHOR,
  --lock-kind KIND      those of this kind,
  --lock-span SPAN      or those of this time
CHANGES is all, numbers:3,7-9, edit:12, \"author:Ann Gray\", kind:KIND, kind:GROUP
  or span:SPAN.
KIND and GROUP are names of kinds, as ins, del or props: redline --help lists
  them.
SPAN is two dates, the second not included:
  2026-11-01T00:00:00Z/2026-11-02T00:00:00Z.
P is a document that Word saved as \"Word XML Document (*.xml)\"; redline-docx
  takes a .docx.
";

const HELP_WRITE: &str = "redline write P ITEM ..

Writes P with the changes decided as its reviewers agree.

ITEM is, in any order:
  J                     a journal
  --lock AUTHOR         nobody decides the changes of AUTHOR,
  --lock-kind KIND      those of this kind,
  --lock-span SPAN      or those of this time
KIND is the name of a kind, as ins, del or run-props: redline --help lists them.
SPAN is two dates, the second not included:
  2026-11-01T00:00:00Z/2026-11-02T00:00:00Z.
P is a document that Word saved as \"Word XML Document (*.xml)\"; redline-docx
  takes a .docx.
";

const HELP_TEXT: &str = "redline text P --view V

Writes the text of P.

V is original, before its changes; final, after them, as without --view; marked,
  with a sign and a number for each change; or bare, for programs that compare.
P is a document that Word saved as \"Word XML Document (*.xml)\"; redline-docx
  takes a .docx.
";

const HELP_LEFT: &str = "redline left P --format F

Tells what P still holds that a reader doesn't see: names, comments, links,
hidden text, changes that nobody decided.

F is text or json; without --format it is text.
P is a document that Word saved as \"Word XML Document (*.xml)\"; redline-docx
  takes a .docx.
";

const HELP_SETTLE: &str = "redline settle accept P
redline settle reject P

Writes P with each change accepted, or with each change rejected.

P is a document that Word saved as \"Word XML Document (*.xml)\"; redline-docx
  takes a .docx.
";

const HELP_JOIN: &str = "redline join J ..

Writes the journal of several journals together.

J is a journal of one and the same document.
";

const HELP_RESUME: &str = "redline resume P Q --journal J K

Writes one journal for P of two sittings: write made Q of P by the journals J,
and the journals K decide Q.

P is a document that Word saved as \"Word XML Document (*.xml)\"; redline-docx
  takes a .docx.
";

const HELP_SAMPLE: &str = "redline sample N

Decides a made-up document of N paragraphs, up to 20000, and tells what came
out: the same on each machine.
";

/// What `--help` tells after each command.
pub const PARTS: [Part<'static>; 12] = [
    Part {
        command: "check",
        text: HELP_CHECK,
    },
    Part {
        command: "list",
        text: HELP_LIST,
    },
    Part {
        command: "report",
        text: HELP_REPORT,
    },
    Part {
        command: "page",
        text: HELP_PAGE,
    },
    Part {
        command: "decide",
        text: HELP_DECIDE,
    },
    Part {
        command: "write",
        text: HELP_WRITE,
    },
    Part {
        command: "text",
        text: HELP_TEXT,
    },
    Part {
        command: "left",
        text: HELP_LEFT,
    },
    Part {
        command: "settle",
        text: HELP_SETTLE,
    },
    Part {
        command: "join",
        text: HELP_JOIN,
    },
    Part {
        command: "resume",
        text: HELP_RESUME,
    },
    Part {
        command: "sample",
        text: HELP_SAMPLE,
    },
];
