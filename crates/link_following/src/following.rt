//! Values that follow one another.

ghost use Rattle.std.specs.Prelude.{List, reverse};
ghost use Rattle.set_model.specs.declared.source.Change.{Change};
ghost use Rattle.link_rules.specs.declared.config.LinkConfig.{LinkConfig};
ghost use Rattle.link_rules.specs.State.{new_link};
ghost use Rattle.link_rules.specs.Step.{Happening, after_all};
ghost use Rattle.client_links.specs.Feeding.{AreFollowing};
ghost use Rattle.link_following.specs.Book.{Book, ComeOf, IsSound};

/// Take for each subscription a list of all its messages, of which no two have the same number, and in which each value of
/// an item is a change of the source that is linked to the value of that item before it. Where whatever data come to a link,
/// of the subscription that it remembers, are one of that one's messages, each value that the link tells is a change of the
/// source, and it is linked to the one that was told before it of the same item since the item's values began and since
/// messages were missing last: whatever is lost, comes late or comes twice.
pub fn values_of_a_link_follow()
    ensures { (config : LinkConfig) (happenings : List Happening) (source : List Change) (book : Book)
        → IsSound source config.items book → ComeOf book happenings (new_link config)
        → AreFollowing source config.items (reverse (after_all happenings (new_link config)).notices) }
{
    link_takings::steps_make_courses();
}
