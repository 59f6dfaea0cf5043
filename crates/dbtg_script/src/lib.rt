//! Scripts, moves, and the exact printed texts.
#![tactic(auto)]

mod automaton;
mod checks;
mod echo;
mod fault;
mod faulty;
mod image;
mod keyword;
mod laws;
mod left;
mod limits;
mod line;
mod line_cache;
mod lookups;
mod moves;
mod print;
mod queries;
mod reader;
mod role;
mod said_words;
mod sizes;
mod spelling;
mod statement;
mod texts;
mod token;
mod turns;
mod usual;
mod values;
mod wanted;
mod word_texts;
mod words;

pub use checks::key_fault;
pub use echo::{Beside, lines_of_history, statement_lines};
pub use fault::{Cause, LineFault, ScriptFault};
pub use faulty::faulty_word;
pub use image::{image_text, moves_text};
pub use laws::{
    a_derived_line_is_read, a_derived_script_has_no_fault_of_the_grammar,
    a_line_behind_a_script_is_read, a_line_without_faults_is_derived, a_printed_key_is_read_back,
    a_printed_moves_text_is_read_back, a_printed_turns_text_is_read_back,
    different_units_print_differently, echoed_lines_say_their_statements,
};
pub use limits::{MOST_MOVES, SCRIPT_BYTES, limits_are};
pub use line::{
    Lines, ends_in_text, is_allowed, is_printable, is_statement, trimmed, without_last,
};
pub use line_cache::{LineCache, Seen};
pub use moves::{MovesCause, MovesFault, read_moves};
pub use print::{push_each_item, push_key, push_mode, push_number, push_owner, push_status};
pub use reader::{read_script, read_script_line};
pub use said_words::read_statement_words;
pub use sizes::{push_echoed_run, push_rest, push_run, push_schema_line, push_script_line};
pub use spelling::{behind, has_byte, in_front, is_key, is_number, number};
pub use statement::key_of;
pub use texts::{
    answers_text, push_answer, push_answered, push_named_answer, push_unit, units_text,
};
pub use token::{Token, Tokens};
pub use turns::{TurnsFault, read_turns};
pub use values::{is_spelled, spelled};
pub use wanted::wanted_in_line;
pub use word_texts::{moves_words_text, turns_text};
