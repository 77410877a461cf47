//! Nodes over whole messages, and how they show nodes over bytes. Nothing here runs.
#![tactic(auto)]
