//! Which messages the data are that a client takes: such as its server's lives sent. The law is the contract of a function
//! that does nothing; nothing here runs.
#![tactic(auto)]

mod coming;

pub use coming::data_come_of_the_book;
