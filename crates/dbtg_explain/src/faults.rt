//! The meaning of the faults of schemas, scripts, programs, moves, turns and traces, in the words of docs/profile: a fault's number, its
//! meaning, where it is found, and what to do next.

/// The faults of a schema.
pub static SCHEMA_FAULTS: &str = "\
1|a byte that is not allowed|when reached; the line told is: its line|Write the text in printable ASCII.
2|more than 65,536 bytes|before all else; the line told is: 1|Leave out what is not needed.
3|another word, or the end, where the grammar wants something|when read; the line told is: the word's; at the end, the last line|Compare the sentence with the grammar. Often a period or a word is missing directly before.
4|a word that is no name where a name is wanted, other than a period or the end (these are 3)|when read; the line told is: the word's|Take a name of 1 to 30 capital letters, digits and hyphens, a letter first, that is no reserved word.
5|an area, record or set name that an area, record type or set has already|when read; the line told is: the word's|Rename one of the two.
6|an item name twice in a record type|when read; the line told is: the word's|Rename one of the two items, or leave one out.
7|unknown area after WITHIN|when read; the line told is: the word's|Declare the area above the record type, or correct the spelling.
8|unknown record type after OWNER or MEMBER|when read; the line told is: the word's|Declare the record type above the set, or correct the spelling.
9|a CALC or KEY item that the record type does not have|CALC: at the record type's end; KEY: when read; the line told is: the word's|Declare the item in the record type, or correct the spelling.
10|unknown set after VIA|at the text's end, in text order; the line told is: the word's|Declare the set, or correct the spelling.
11|a word that is no picture where one is wanted, other than a period or the end (these are 3)|when read; the line told is: the word's|Write 9(n) with n from 1 to 18, X(n) with n from 1 to 64, or a run of 9 or X.
12|the owner type is the member type|at the member's period, first; the line told is: its word MEMBER's|Give the set another owner or another member.
13|a member type twice in a set|at the member's period, after 12; the line told is: its word MEMBER's|Leave out the second MEMBER sentence.
14|key pictures of unequal kind or length in a set|at the member's period, after 15; the line told is: its word MEMBER's|Give the key items of all members of the set pictures of one kind and length.
15|KEY missing in a sorted set, or there in another|at the member's period, after 13; the line told is: its word MEMBER's|Write KEY in each MEMBER sentence of a SORTED set, and in no other.
16|over a limit: 8 areas, 16 record types, 16 sets, 16 items, 4 members, 4 CALC items|at the surplus entry's first word (AREA, RECORD, SET, 02, MEMBER), or at the fifth CALC item; the line told is: the word's|Make the schema smaller: leave out entries, or merge them.
17|a record type without items|at its end; the line told is: its word RECORD's|Give the record type at least one item.
18|an item twice in CALC USING|at the record type's end, with 9 in text order, after 17; the line told is: the second mention's|Name each item once after USING.";

/// The faults of a script.
pub static SCRIPT_FAULTS: &str = "\
1|a byte of the line that is not printable ASCII, or a line of more than 1,000 bytes|in a line before its words|Replace the byte, a tab by spaces, or make the line shorter.
2|the first word is no statement word|at the first word of a line|Begin the line with a statement, or with * if it is a note.
3|another word, or the line's end, where the grammar wants something; an unclosed text; a word left over|at the word that does not fit, or at the line's end|Compare the line with the grammar of the statement. A text needs both its quotes.
4|unknown area|at the name, once its kind is known|Take an area of the schema, in its spelling.
5|unknown record type|at the name, once its kind is known|Take a record type of the schema, in its spelling.
6|unknown set|at the name, once its kind is known|Take a set of the schema, in its spelling.
7|an item that the record type does not have|at the item|Take an item of that record type, in its spelling.
8|an item named twice|at the second mention|Name each item once.
9|a text for a number item, or a number for a text item|at the value|Write digits for a number item, and a text in double quotes for a text item.
10|a number above the picture's greatest, or of more than 18 digits after leading zeros; a text longer than the picture|at the value|Take a value that the item's picture can hold.
11|in FIND w r RECORD, a record type that is no member of the set, or not of the area|at the line's end|Take a member type of the set, or a record type of the area.
12|FIND CALC or NEXT DUPLICATE of a type without CALC; FIND CALC that names another item or not all; FIND SORTED of a set that is not sorted; FIND OWNER of a SYSTEM set|at the line's end|Search in a way that the schema provides for: the CALC items, a sorted set, a set with an owner.
13|n that is 0 or above 999,999 in FIND; a key number that is 0 or above 999,999; a generation that is 0 or above 255|at the number|Take a number from 1 to 999,999, and a generation from 1 to 255.
14|a text of more than 1,048,576 bytes (line 1), or statement 65,536 (its line)|before all else for the text, at its line for the statement|Divide the script: each run-unit has one of at most 65,535 statements.";

/// The faults that programs have in addition to those of scripts, and their limits.
pub static PROGRAM_FAULTS: &str = "\
14|a text of more than 1,048,576 bytes (line 1), or sentence 65,536 (its line)|before all else for the text, at its line for the sentence|Make the program shorter: it has at most 65,535 sentences.
21|unknown paragraph; it may stand further below|at the name after GO TO|Write the paragraph, or correct the spelling.
22|a paragraph that stands in the text before|at the name|Rename one of the two.
23|a name where a field is wanted, but neither an item of a record type nor a counter|at the word|Declare the counter by 01 at the top, take an item of the schema as RECORD.ITEM, or correct the spelling.
24|a counter with the name of a counter before it or of a record type, or a word that is no name|at the name after 01|Take a name of 1 to 30 capital letters, digits and hyphens, a letter first, that no counter and no record type has.
25|a number and a text compared or moved; a text added or subtracted, or a field of texts that is added to or subtracted from|at the second of the two, or at the text|Compare and move values of one kind, and count with numbers alone.
26|01 after another sentence|at 01|Declare all counters at the top of the program.
27|counter 65|at 01|Use fewer counters: a program has at most 64.";

/// The faults of moves.
pub static MOVES_FAULTS: &str = "\
1|a word that is not u, u*k or Qu|at the word|Write u, u*k or Qu, with u from 1 to 99 and k from 1 to 1,000,000, without leading zeros.
2|the word with which the total passes 1,000,000|at the word with which the total passes 1,000,000|Make fewer moves.";

/// The faults of turns.
pub static TURNS_FAULTS: &str = "\
1|a word that is not u or u*k (a quit is not allowed here)|at the word|Write u or u*k, with u from 1 to 99 and k from 1 to 1,000,000, without leading zeros.
2|the word with which the total passes 1,000,000|at the word with which the total passes 1,000,000|Take fewer turns.";

/// The faults that traces have in addition to those of scripts, and their limits.
pub static TRACE_FAULTS: &str = "\
14|a text of more than 67,108,864 bytes (line 1), or statement 524,281 (its line)|before all else for the text, at its line for the statement|Make the trace shorter: it has at most 524,280 statements, as many as eight scripts.
31|no unit: no colon, other bytes than digits before the first one, or a unit that is not from 1 to the number of units|after the bytes of its line|Begin the line with the number of the unit and a colon; --units says how many units there are.
32|no arrow after the unit outside of a text|after the unit of its line|Write => and the answer after the statement.
33|no answer: another first word than four digits, another word after it than a key of the schema, other words after the key than all its items with values of their pictures, or an unclosed text|after the statement of its line|Write the status, or the status and the key, or these and all items, as replay prints them.";
