//! What passes on connections: what is heard of messages, what a server's life heard and put on each of its connections, a
//! client on each that it dialled, and where the two meet. These are definitions alone.
#![tactic(auto)]
