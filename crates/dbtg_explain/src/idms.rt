//! Statuses and words of IDMS that are none here: what each is there, and what stands for it here. docs/coming-from-idms.md has them side by
//! side.

/// Statuses that no statement has here: the code, what it is there, and what it is here.
pub static STATUSES_THERE: &str = "\
0029|deadlock|none: no lock outlives a statement, and units never wait for one another in a circle
0069|the system, a run-unit, an area or a journal is gone|none
0209|ERASE, area readied in the wrong mode|0909 DELETE, update mode needed
0213|ERASE, no current of run-unit|0913 DELETE, no current of run-unit
0229|ERASE, deadlock|none: no lock outlives a statement, and units never wait for one another in a circle
0230|ERASE, the record owns members|0930 DELETE, owner has members
0329|FIND, deadlock|none: no lock outlives a statement, and units never wait for one another in a circle
0513|GET, no current of run-unit|0413 GET, no current of run-unit
0520|GET, the current is of another record type|0420 GET, other record type
0529|GET, deadlock|none: no lock outlives a statement, and units never wait for one another in a circle
0629|KEEP, deadlock|none: no lock outlives a statement, and units never wait for one another in a circle
0705|CONNECT, duplicates not allowed|0605 INSERT, duplicates not allowed
0706|CONNECT, no current of the set|0606 INSERT, no such current
0714|CONNECT, the member is MANDATORY AUTOMATIC|0614 INSERT, mandatory automatic
0716|CONNECT, already a member|0616 INSERT, already member
0729|CONNECT, deadlock|none: no lock outlives a statement, and units never wait for one another in a circle
0829|MODIFY, deadlock|none: no lock outlives a statement, and units never wait for one another in a circle
0928|READY, area readied already|0128 OPEN, area already open
0929|READY, deadlock|0129 OPEN, usage conflict: OPEN does not wait
0966|the system, a run-unit, an area or a journal is gone|none
1101|DISCONNECT, area not readied|0701 REMOVE, area not open
1109|DISCONNECT, area readied in the wrong mode|0709 REMOVE, update mode needed
1115|DISCONNECT, the member is MANDATORY|0715 REMOVE, mandatory
1120|DISCONNECT, the current is of another record type|0720 REMOVE, other record type
1122|DISCONNECT, not a member|0722 REMOVE, not a member
1129|DISCONNECT, deadlock|none: no lock outlives a statement, and units never wait for one another in a circle
1201|STORE, area not readied|0501 STORE, area not open
1205|STORE, duplicates not allowed|0505 STORE, duplicates not allowed
1206|STORE, no current of a set|0506 STORE, no such current
1209|STORE, area readied in the wrong mode|0509 STORE, update mode needed
1211|STORE, no space|0511 STORE, no room
1229|STORE, deadlock|none: no lock outlives a statement, and units never wait for one another in a circle
1469|the system, a run-unit, an area or a journal is gone|none
1470|the system, a run-unit, an area or a journal is gone|none
1474|the system, a run-unit, an area or a journal is gone|none
1477|the system, a run-unit, an area or a journal is gone|none";

/// Words of a schema of IDMS that no schema here has: the word, and the hint for it.
pub static WORDS_THERE: &str = "\
(|; leave the parentheses out
WITHIN AREA|; leave AREA out
S9V99|; a number has neither sign nor point: write 9(n), and cents for units
PICTURE.|; a group is no item: write its items, each with level 02
VERSION|; leave VERSION and its number out
RECORD|; RECORD ID is left out, with its number
ID|; leave RECORD ID and its number out
MODE|; MODE IS CHAIN or INDEX is left out: every list is read in both directions
CHAIN|; leave it out: every list is read in both directions
INDEX|; leave it out: every list is read in both directions
LINKED|; leave LINKED TO out: every list is read in both directions, and from a member to its owner
NEXT|; NEXT DBKEY POSITION is left out
PRIOR|; PRIOR DBKEY POSITION is left out
OWNER|; OWNER DBKEY POSITION is left out
DBKEY|; leave DBKEY POSITION out
POSITION|; leave it out, with its number
OFFSET|; leave it out: an area has no pages
DIRECT|; here CALC, or no LOCATION MODE
SYSTEM-DEFAULT|; here LAST
IMMATERIAL|; here LAST
USAGE|; leave USAGE out
DISPLAY|; leave it out
COMP|; leave it out: a number is 9(n)
COMP-1|; leave it out: a number is 9(n)
COMP-2|; leave it out: a number is 9(n)
COMP-3|; leave it out: a number is 9(n)
COMPUTATIONAL|; leave it out: a number is 9(n)
COMPUTATIONAL-3|; leave it out: a number is 9(n)
OCCURS|; here the members of a repeating group are a record type of their own, owned by the first
REDEFINES|; here an item has one form: write the one that the program uses
VALUE|; leave VALUE out: an item that is not named in STORE is 0 or spaces
01|; each item has level 02
03|; each item has level 02, and a group is written as its items
04|; each item has level 02, and a group is written as its items
05|; each item has level 02, and a group is written as its items
10|; each item has level 02, and a group is written as its items
15|; each item has level 02, and a group is written as its items
88|; leave level 88 out";
