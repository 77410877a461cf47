//! What all that happens in a server's life comes to, said of its rules alone (OPC 10000-4). Nothing here runs.
#![tactic(auto)]

mod ids;
mod lives;
mod lockstep;
mod messages;

pub use ids::{
    channel_ids_are_told, channel_ids_rise, lives_share_no_ids, session_tokens_are_given_once,
    subscription_ids_are_given_once,
};
pub use lives::{
    current_values_are_the_last, lives_are_steps, responses_answer_their_requests,
    subscriptions_are_calls,
};
pub use lockstep::{
    beginnings_are_quiet, connections_are_quiet_until_a_publish, connections_are_those_opened,
    nothing_is_sent_before_a_publish, openings_are_answered_at_once,
    owners_keep_their_subscriptions, requests_are_answered_at_once,
    transfers_answer_the_kept_numbers,
};
pub use messages::{
    chains_of_messages_are_linked, kept_messages_were_sent, messages_are_counted,
    messages_are_of_their_subscription, messages_of_lives_are_counted,
    neighbours_of_messages_are_linked,
};
