//! The printed text of a table, read again: laws on the definitions of the language.
#![tactic(auto)]

mod law;

pub use law::{
    printed_integer_is_read, printed_text_is_legal, printed_text_is_read,
    printed_text_is_the_table_again, printed_text_means_the_table, printed_tree_is_accepted,
    quoted_text_is_read,
};
