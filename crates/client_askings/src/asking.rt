//! What is heard of what a client says.
ghost use Rattle.std.specs.Prelude.{List};
ghost use Rattle.std.specs.List.{AllByRecursion};
ghost use Rattle.ua_channel.specs.declared.heard.Heard.{Heard};
ghost use Rattle.ua_channel.specs.Orders.{puts_of};
ghost use Rattle.link_rules.specs.Said.{Said, orders_of};
ghost use Rattle.link_keeps.specs.Fitting.{KeepsSaid};
ghost use Rattle.link_takings.specs.Exchange.{messages_of};
ghost use Rattle.set_talks.specs.Heard.{AreHeardOf};
ghost use Rattle.client_askings.specs.Reading.{AreReadAs};

/// Where what a client's link says keeps the limits of the wire, each message that is heard of what it puts, one after
/// another, is heard as the request that it asks for at this place, or as none. So is a Publish with more acknowledgements
/// than an array may have: it is heard as no other request.
pub fn what_is_heard_was_asked()
    ensures { (said : List Said) (heard : List Heard) → AllByRecursion KeepsSaid said
        → AreHeardOf heard (puts_of (orders_of said)) → AreReadAs heard (messages_of said) }
{
    ua_services::requests_are_read_again();
}
