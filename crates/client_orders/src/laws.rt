//! What a client orders for its servers' connections, where what it hears keeps the limits.
ghost use Rattle.std.specs.Prelude.{◌≡◌, ℕ, List, [], Option, true, false, length};
ghost use Rattle.ua_chunks.specs.Sending.{Sending};
ghost use Rattle.ua_channel.specs.Sharing.{own};
ghost use Rattle.link_rules.specs.declared.notice.Wish.TheVariants as wish;
ghost use Rattle.link_rules.specs.State.{LinkState};
ghost use Rattle.link_rules.specs.Opening.{begins_anew};
ghost use Rattle.link_rules.specs.Step as link;
ghost use Rattle.link_keeps.specs.Fitting as link_keeps;
ghost use Rattle.client_rules.specs.State.{ClientState, is_server, link_of};
ghost use Rattle.client_rules.specs.Acts.{Happening, Opens};
ghost use Rattle.client_rules.specs.Dialling.{dialled};
ghost use Rattle.client_rules.specs.Step.{after};
ghost use Rattle.client_keeps.specs.Fitting.{FitsClient, FitsHappening};
ghost use Rattle.client_orders.specs.Coming.{PutsFit};
ghost use Rattle.client_orders.specs.Holding.{HoldsConnection, IsBeside, IsQuiet};
ghost use Rattle.client_orders.specs.Lawful.{IsLawfulFrom, IsLawfulInUse, IsLawfulInUseTo, IsLawfulTo, KnowsLimit, KnowsLimitInUse, KnowsLimitInUseOf, KnowsLimitOf};

/// The orders that a link gives are those that its connection's end may be given: messages of numbers of 32 bits, each
/// within the limits that the server named, and the limits themselves. The link says nothing longer than what the end
/// puts, before and after.
pub fn what_a_link_says_is_lawful()
    ensures { (s : Sending) (h : link.Happening) (l : LinkState) → link_keeps.FitsLink l → link_keeps.FitsHappening h
        → KnowsLimit l s → IsLawfulFrom s (link.after h l) }
{}

/// So are the orders that a client gives for the connection to each of its servers, whatever happens to it; for a number
/// that is no server's there are none. The dials at the end of an event change nothing of what its links know of their
/// connections, and it has the same servers all the time.
pub fn orders_are_lawful()
    ensures step { (number : ℕ) (s : Sending) (h : Happening) (c : ClientState) → FitsClient c → FitsHappening h
        → KnowsLimitOf number c s → IsLawfulTo number s (after h c) }
    ensures others { (number : ℕ) (h : Happening) (c : ClientState) → is_server number c ≡ false
        → own number (after h c).orders ≡ [] }
    ensures dialled { (number : ℕ) (c : ClientState)
        → (link_of number (dialled c)).conversation ≡ (link_of number c).conversation }
    ensures servers { (h : Happening) (c : ClientState) → length (after h c).client.links ≡ length c.links }
    ensures servers_dialled { (c : ClientState) → length (dialled c).links ≡ length c.links }
{}

/// The same where nothing is known of the limit of a link that uses no connection. So it holds of each connection from
/// its beginning, whatever the link knew of the one before: a link that begins anew has nothing to know.
pub fn orders_are_lawful_on_each_connection()
    ensures anew { (s : Sending) (l : LinkState) → begins_anew l ≡ true → KnowsLimitInUse l s }
    ensures link { (s : Sending) (h : link.Happening) (l : LinkState) → link_keeps.FitsLink l → link_keeps.FitsHappening h
        → KnowsLimitInUse l s → IsLawfulInUse s (link.after h l) }
    ensures step { (number : ℕ) (s : Sending) (h : Happening) (c : ClientState) → FitsClient c → FitsHappening h
        → KnowsLimitInUseOf number c s → IsLawfulInUseTo number s (after h c) }
    ensures dialled { (number : ℕ) (s : Sending) (c : ClientState) → KnowsLimitInUse (link_of number c) s
        → KnowsLimitInUse (link_of number (dialled c)) s }
{}

/// Each message that a client puts fits where a server hears it, whatever the server awaits: a request keeps the limits,
/// and a Publish with more acknowledgements than an array may have is no request, behind a header whose handle has 32
/// bits.
pub fn what_is_put_fits_where_it_is_heard()
    ensures { (h : Happening) (c : ClientState) → FitsClient c → FitsHappening h → PutsFit (after h c).orders }
{}

/// A link that has a connection, which it uses or wishes closed, has it as long as none is opened, refused or closed and
/// its wish isn't taken. It has one where one is opened that is its first; and where it wishes to dial, the next one is
/// its first, and there is none to close.
pub fn a_connection_stands()
    ensures stays { (h : link.Happening) (l : LinkState) → IsQuiet h → HoldsConnection l
        → HoldsConnection (link.after h l).link }
    ensures opens { (url : Option (List ℕ)) (l : LinkState) → begins_anew l ≡ true → HoldsConnection (link.after (link.Opens url) l).link }
    ensures wish { (l : LinkState) → link.wish_of l ≡ wish.Dial → (begins_anew l ≡ true) × (l.closes ≡ false) }
{}

/// The same of a client: whatever happens beside a connection to this server, and at the end of each event, it stands;
/// and it stands where it is opened and is the first.
pub fn connections_stand()
    ensures stays { (number : ℕ) (h : Happening) (c : ClientState) → is_server number c ≡ true → IsBeside number h
        → HoldsConnection (link_of number c) → HoldsConnection (link_of number (after h c).client) }
    ensures opens { (number : ℕ) (c : ClientState) → is_server number c ≡ true → begins_anew (link_of number c) ≡ true
        → HoldsConnection (link_of number (after (Opens number) c).client) }
    ensures dialled { (number : ℕ) (c : ClientState) → HoldsConnection (link_of number c)
        → HoldsConnection (link_of number (dialled c)) }
{}
