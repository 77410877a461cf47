ghost use Rattle.std.specs.Prelude.{◌≡◌, ◌<◌, ◌++◌, IfOk, OnOk};
ghost use Rattle.server_rules.specs.Said.{orders_of};
ghost use Rattle.server_rules.specs.Operations.{answered};
ghost use Rattle.server_rules.specs.Subscriptions.{create_one, create_sub, created_reply, modified_reply, modify_checked, modify_one, modify_sub, new_checked, revised_spec, with_new_sub};

use crate::checks::own_sub;
use server_rules::{
    Asker, duration_bits, revised_duration, revised_keep_alive, revised_lifetime, revised_most,
};
use server_subs::ServerData;
use std::alloc::Global;
use subscription::SubSpec;
use ua_base::OutOfMemory;
use ua_base::status::{BAD_SUBSCRIPTION_ID_INVALID, BAD_TOO_MANY_SUBSCRIPTIONS};
use ua_channel::Order;
use ua_services::Reply;
use ua_sub_msgs::{
    CreateSubscriptionRequest, CreateSubscriptionResponse, ModifySubscriptionRequest,
    ModifySubscriptionResponse, SubReply,
};

/// How many subscriptions exist at the most.
const MOST_SUBS: usize = 32;

/// How many subscriptions are made in one life at the most.
const MOST_MADE: u32 = 65_535;

/// What a subscription has, from what is asked for.
#[tactic(auto, unfolding(server_rules::specs::Subscriptions::revised_spec))]
fn revised_spec(
    id: u32,
    enabled: bool,
    interval: u64,
    lifetime: u32,
    keep_alive: u32,
    most: u32,
) -> SubSpec
    ensures { result ≡ revised_spec id enabled interval lifetime keep_alive most }
{
    let keep_alive = revised_keep_alive(keep_alive);
    SubSpec {
        id,
        interval: revised_duration(10, 3_600_000, interval),
        keep_alive,
        lifetime: revised_lifetime(keep_alive, lifetime),
        most: revised_most(most),
        enabled,
    }
}

/// What the subscription is to be made with, or the status code that refuses it.
fn new_checked(server: &ServerData, request: &CreateSubscriptionRequest) -> Result<SubSpec, u32>
    ensures checked { result ≡ new_checked request.now server.now }
    ensures room { IfOk result (λ _. server.now.made < 65535) }
{
    let made = server.made();
    if MOST_SUBS <= server.subs_len() || MOST_MADE <= made {
        return Err(BAD_TOO_MANY_SUBSCRIPTIONS);
    }
    Ok(revised_spec(
        u32::from(server.config().boot) * 65_536 + (made + 1),
        request.publishing_enabled,
        request.requested_publishing_interval,
        request.requested_lifetime_count,
        request.requested_max_keep_alive_count,
        request.max_notifications_per_publish,
    ))
}

/// Makes a subscription of a session.
#[tactic(auto, unfolding(server_rules::specs::Subscriptions::with_new_sub))]
fn add(
    alloc: Global,
    server: &mut ServerData,
    session: u32,
    spec: SubSpec,
) -> Result<(), OutOfMemory>
    requires { server.old.made < 65535 }
    ensures { OnOk result (server.new ≡ with_new_sub session spec server.old) }
{
    let made = server.made();
    server.add_sub(alloc, session, spec)?;
    server.set_made(made + 1);
    Ok(())
}

/// Answers with what the subscription was made with.
fn answer_created(
    alloc: Global,
    server: &mut ServerData,
    asker: Asker,
    spec: SubSpec,
    to: &mut Vec<(u32, Order)>,
) -> Result<(), OutOfMemory>
    ensures state { OnOk result (server.new ≡ (answered asker (created_reply spec) server.old).state) }
    ensures orders { OnOk result
        (to.new.items ≡ to.old.items ++ orders_of (answered asker (created_reply spec) server.old).said) }
{
    let reply = Reply::Subscription(SubReply::CreateSubscription(CreateSubscriptionResponse {
        response_header: server.good_header(asker.handle),
        subscription_id: spec.id,
        revised_publishing_interval: duration_bits(spec.interval),
        revised_lifetime_count: spec.lifetime,
        revised_max_keep_alive_count: spec.keep_alive,
    }));
    server.reply(alloc, asker, &reply, to)
}

/// Makes a subscription, and answers.
fn create_one(
    alloc: Global,
    server: &mut ServerData,
    asker: Asker,
    session: u32,
    spec: SubSpec,
    to: &mut Vec<(u32, Order)>,
) -> Result<(), OutOfMemory>
    requires { server.old.made < 65535 }
    ensures state { OnOk result (server.new ≡ (create_one asker session spec server.old).state) }
    ensures orders { OnOk result
        (to.new.items ≡ to.old.items ++ orders_of (create_one asker session spec server.old).said) }
{
    add(alloc, server, session, spec)?;
    answer_created(alloc, server, asker, spec, to)
}

/// Makes a subscription of the session (OPC 10000-4, 5.13.2), whose first cycle is an interval from now. The interval is
/// brought into 10 to 3,600,000 ms, the keep-alive count into 1 to 10,000, the lifetime count is the requested one up to
/// 100,000 and at least three keep-alive counts, and a message has at most 1000 notifications. The request is refused by
/// `Bad_TooManySubscriptions` where 32 exist, or where 65,535 were made in this life.
#[tactic(auto, unfolding(server_rules::specs::Subscriptions::create_sub))]
pub fn create_sub(
    alloc: Global,
    server: &mut ServerData,
    asker: Asker,
    session: u32,
    request: &CreateSubscriptionRequest,
    to: &mut Vec<(u32, Order)>,
) -> Result<(), OutOfMemory>
    ensures state { OnOk result (server.new ≡ (create_sub asker session request.now server.old).state) }
    ensures orders { OnOk result
        (to.new.items ≡ to.old.items ++ orders_of (create_sub asker session request.now server.old).said) }
{
    match new_checked(server, request) {
        Ok(spec) => create_one(alloc, server, asker, session, spec, to),
        Err(code) => server.fault(alloc, asker, code, to),
    }
}

/// What the subscription is to have from now on, or the status code that refuses the request.
fn modify_checked(
    server: &ServerData,
    session: u32,
    request: &ModifySubscriptionRequest,
) -> Result<SubSpec, u32>
    ensures { result ≡ modify_checked session request.now server.now }
{
    match own_sub(server, session, request.subscription_id) {
        Some(sub) => Ok(revised_spec(
            request.subscription_id,
            sub.spec().enabled,
            request.requested_publishing_interval,
            request.requested_lifetime_count,
            request.requested_max_keep_alive_count,
            request.max_notifications_per_publish,
        )),
        None => Err(BAD_SUBSCRIPTION_ID_INVALID),
    }
}

/// Answers with what the subscription has now.
fn answer_modified(
    alloc: Global,
    server: &mut ServerData,
    asker: Asker,
    spec: SubSpec,
    to: &mut Vec<(u32, Order)>,
) -> Result<(), OutOfMemory>
    ensures state { OnOk result (server.new ≡ (answered asker (modified_reply spec) server.old).state) }
    ensures orders { OnOk result
        (to.new.items ≡ to.old.items ++ orders_of (answered asker (modified_reply spec) server.old).said) }
{
    let reply = Reply::Subscription(SubReply::ModifySubscription(ModifySubscriptionResponse {
        response_header: server.good_header(asker.handle),
        revised_publishing_interval: duration_bits(spec.interval),
        revised_lifetime_count: spec.lifetime,
        revised_max_keep_alive_count: spec.keep_alive,
    }));
    server.reply(alloc, asker, &reply, to)
}

/// Changes a subscription, and answers.
fn modify_one(
    alloc: Global,
    server: &mut ServerData,
    asker: Asker,
    spec: SubSpec,
    to: &mut Vec<(u32, Order)>,
) -> Result<(), OutOfMemory>
    ensures state { OnOk result (server.new ≡ (modify_one asker spec server.old).state) }
    ensures orders { OnOk result
        (to.new.items ≡ to.old.items ++ orders_of (modify_one asker spec server.old).said) }
{
    server.modify_sub(spec.id, spec);
    answer_modified(alloc, server, asker, spec, to)
}

/// Changes a subscription (OPC 10000-4, 5.13.3): what is asked for is revised as where one is made, both counts of
/// cycles begin again, and the next cycle is an interval from now. The request is refused by
/// `Bad_SubscriptionIdInvalid` where the subscription isn't the session's.
#[tactic(auto, unfolding(server_rules::specs::Subscriptions::modify_sub))]
pub fn modify_sub(
    alloc: Global,
    server: &mut ServerData,
    asker: Asker,
    session: u32,
    request: &ModifySubscriptionRequest,
    to: &mut Vec<(u32, Order)>,
) -> Result<(), OutOfMemory>
    ensures state { OnOk result (server.new ≡ (modify_sub asker session request.now server.old).state) }
    ensures orders { OnOk result
        (to.new.items ≡ to.old.items ++ orders_of (modify_sub asker session request.now server.old).said) }
{
    match modify_checked(server, session, request) {
        Ok(spec) => modify_one(alloc, server, asker, spec, to),
        Err(code) => server.fault(alloc, asker, code, to),
    }
}
