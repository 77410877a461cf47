//! What a server makes of the items that a client's link asks for.
ghost use Rattle.std.specs.Prelude.{ℕ, List, Some};
ghost use Rattle.ua_base.specs.declared.modes.Timestamps.{Timestamps};
ghost use Rattle.subscription.specs.declared.spec.ItemSpec.{ItemSpec};
ghost use Rattle.link_rules.specs.declared.config.LinkConfig.{LinkConfig};
ghost use Rattle.link_rules.specs.Requests.{item_requests};
ghost use Rattle.server_makings.specs.Asked.{AreMadeOf, asked_with};
ghost use Rattle.life_books.specs.Books.{AreOwnItems};

/// A link asks for one item of each of the first so many nodes, under the node's number as handle. What a server makes of
/// these are items of which no two have the same handle: each is of the node that its handle names, has the times that
/// were asked for, and has a queue of two places or more where one was asked for.
pub fn asked_items_have_their_own_handles()
    ensures { (items : ℕ) (config : LinkConfig) (count : ℕ) (stamps : Timestamps) (specs : List ItemSpec)
        → AreMadeOf items specs (asked_with (Some stamps) (item_requests config count))
        → AreOwnItems config count stamps specs }
{
    server_makings::items_are_made_as_asked();
}
