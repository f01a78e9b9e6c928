//! The table of explanations: `docs/REFUSALS.md` has each text too, and `scripts/docs` holds the page to it.

/// Each text begins with what it explains: the numbers of refusals, those of faults of input files, the words behind `fault`.
/// A line behind that begins with `What to do: `.
pub(crate) const EXPLANATIONS: [&str; 49] = [
    "10 The document made the entry that is told, with other contents.\n\
     What to do: compare the two. Where the entry is right, drop the command; where\n\
     it is other work, give it a document of its own, as another line of the log.\n",
    "11 The book has 1,000,000 entries; or 50 aircraft, where one more is added; or\n\
     5,000 components, where one more is added.\n\
     What to do: begin another book; all else goes on (`docs/OPERATING.md`).\n",
    "20 No aircraft has a registration that is named, or that is asked for.\n\
     What to do: look at its spelling; else enter `add-aircraft` first.\n",
    "21 No component has a serial number that is named.\n\
     What to do: look at its spelling; else enter `add-component` first.\n",
    "22 The aircraft that a component is fitted to has no position of that name.\n\
     What to do: take one of the positions that its `add-aircraft` has.\n",
    "23 An opening names a kind without a maintenance programme; or work is released,\n\
     and none is in force for the kind of the aircraft, or that the shop names.\n\
     What to do: load the programme of the kind first, or mend the kind.\n",
    "24 The programme in force does not have the task, or has it for another part\n\
     than the item, or not for an airframe.\n\
     What to do: look at `id` and `applies` there, or load a revision that has it.\n",
    "25 No defect was deferred by the document that an extension or a release names.\n\
     What to do: name the document of the `defer`, not its item of the minimum\n\
     equipment list.\n",
    "30 An aircraft has the registration already.\n\
     What to do: nothing, where it is the same; a registration stands for one\n\
     aircraft.\n",
    "31 A component has the serial number already, whatever its part.\n\
     What to do: nothing, where it is the same; else give it a serial number that\n\
     tells the two apart.\n",
    "33 A component is fitted to that position.\n\
     What to do: enter its removal first.\n",
    "34 The component to be fitted, or worked on in a shop, is fitted to an aircraft.\n\
     What to do: enter its removal first; where the work was done on the aircraft,\n\
     release it there.\n",
    "35 The component that is to be removed is fitted nowhere.\n\
     What to do: look at the serial number; a fitting may not have been entered.\n",
    "36 The position takes another part than the component is one of.\n\
     What to do: look at the serial number and the position: the part was listed with\n\
     each.\n",
    "37 A release certifies a task of an item that is not there: not the airframe of\n\
     the aircraft, no component fitted to it, or not the component in the shop.\n\
     What to do: release the work where the item is; enter a missing fitting first.\n",
    "38 The task of the item was opened or done already: an opening is entered once,\n\
     before any work, and a task without a repeat is done once.\n\
     What to do: drop the opening, or load a revision that gives the task a repeat.\n",
    "39 The task retires its item, and is neither opened nor released; or the\n\
     component is at the limit of such a task, by its life or the day of the fitting.\n\
     What to do: don't fit it. For another limit load the revision that states it.\n",
    "40 The defect was rectified already.\n\
     What to do: nothing; a defect that comes back is deferred anew, by another\n\
     document.\n",
    "41 The command is before the last moment known of its aircraft or component.\n\
     What to do: look at the moment. Entries go in the order of time: what was left\n\
     out before it can't be entered any more (`docs/OPERATING.md` says what to do).\n",
    "42 The defect is of category A, whose interval is not extended.\n\
     What to do: rectify it by its last day (`office limits`).\n",
    "43 The interval of the defect was extended already, and is extended once.\n\
     What to do: rectify it by its last day (`office limits`).\n",
    "44 The extension has more days than the interval: 3 for B, 10 for C, 120 for D.\n\
     What to do: enter at most as many days as are told.\n",
    "45 The day of the extension is after the last day of the interval, which is\n\
     told.\n\
     What to do: rectify the defect: it can't be extended any more.\n",
    "46 The programme is not the next revision of its kind: 1, and then one by one.\n\
     What to do: load the revision that is told first, or mend `revision` in the\n\
     file.\n",
    "47 An opening of an airframe names the programme of another kind; or a release\n\
     rectifies a defect of another aircraft, or does so in a shop.\n\
     What to do: name the kind of the aircraft; release at the one with the defect.\n",
    "48 The day of the opening is after that of the `as_of` of its item.\n\
     What to do: enter what was done after it as a release.\n",
    "49 The opening has more minutes or cycles than the item brought with it.\n\
     What to do: look at the life at which the task was last done: minutes, not\n\
     hours.\n",
    "52 Two lines of the release are equal.\n\
     What to do: leave one of them out.\n",
    "60 Memory ran out while the file was read.\n\
     What to do: hand it in again where more memory is free, or in smaller files.\n",
    "61 The bytes are no UTF-8, or the text is no JSON, or no TOML.\n\
     What to do: look for a comma, bracket or quote that is missing, or save it as\n\
     UTF-8.\n",
    "62 A key is missing: `do`, a key of the command, position or line, `days` of a\n\
     defect of category A; of a programme, one that may not be absent.\n\
     What to do: add the key.\n",
    "63 A value can't be read, or is text for a number or a number for text; or the\n\
     file is no list, or its entry no object.\n\
     What to do: mend it: digits alone, days YYYY-MM-DD, moments YYYY-MM-DDTHH:MM.\n",
    "64 There is a key that the form does not have.\n\
     What to do: look at its spelling, or take it out.\n",
    "65 Each value can be read, but not all can be so: a landing before the take-off,\n\
     51 cycles, `tail` beside `serial`, two tasks of one name.\n\
     What to do: mend the amounts; `docs/DEFINITIONS.md` has the bounds.\n",
    "66 The first line is not `tail,page,line,off,on,cycles`, or there is none.\n\
     What to do: put that line in front.\n",
    "67 There are more than 8,388,608 bytes, 10,000 commands or 100,000 rows.\n\
     What to do: split the file, in the order of time.\n",
    "68 The row has other than six fields.\n\
     What to do: look for a comma too many or too few.\n",
    "69 The file can't be opened, or a read of it failed.\n\
     What to do: look at its name and at who may read it.\n",
    "words A word can't be read: a registration, a document, a day, a moment, a\n\
     number, or one out of its bounds; or `explain` does not have it.\n\
     What to do: look at its form in the help of the word, `office WORD --help`.\n",
    "shape Of `try` alone: the words are read, and are those of no sector or\n\
     aircraft.\n\
     What to do: look at its bounds in `office try --help`.\n",
    "memory Memory ran out. With status 5 nothing was entered; with 4 what has a\n\
     reply stands, and a part of the replies may be missing.\n\
     What to do: hand the same file in again: what was entered is answered `already`.\n",
    "store The file can't be opened, read or written: another program has it open, it\n\
     may only be read, the disk is full or fails, or it is no database.\n\
     What to do: mend that, and hand the same file in again; else take the last copy.\n",
    "reopen The office was asked again behind a `fault store`, and did nothing.\n\
     What to do: as `office explain store` says.\n",
    "damaged A row of the table that is told can't be read, or is that of no book:\n\
     someone else wrote the file, or the disk lost something.\n\
     What to do: don't mend it: take the last copy, and enter what came after again.\n",
    "not-ours There is no file of that name, it is empty, or it is a database of\n\
     another program. It is left as it is.\n\
     What to do: look at the name; `init` makes a new one.\n",
    "exists Of `init` and `init-old` alone: the file has a book, or a table `office`\n\
     of another program.\n\
     What to do: nothing, where it is the book that you mean.\n",
    "newer A later program made the file, in the layout that is told, or has moved it\n\
     there.\n\
     What to do: take that program.\n",
    "older The file has the layout that is told, from which no way leads on.\n\
     What to do: nothing: it never comes, since a file of each older layout is moved\n\
     on.\n",
    "net Of `serve` alone: the port can't be bound, as where another program has it.\n\
     What to do: take another port.\n",
];
