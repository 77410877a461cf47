//! What a redundant set of servers and its client come to, line by line of a scenario: the definitions, for nodes of any
//! kind. Nothing here runs.
#![tactic(auto)]
