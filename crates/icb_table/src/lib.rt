//! What a table over a set of files is: definitions, and the laws on them.
#![tactic(auto)]

mod laws;

pub use laws::{
    committed_is_own, empty_stands, knowledge_is_ordered, no_foreign_shows_no_more,
    records_are_content, records_come_in_steps, refusals_differ, small_table_is_asked,
    small_table_is_read, table_when_grown, text_of_front, visited_suffice, whole_tree_stays,
};
