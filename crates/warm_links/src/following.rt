//! Values that follow one another while their items report.
ghost use Rattle.std.specs.Prelude.{ℕ, List, false, reverse};
ghost use Rattle.set_model.specs.declared.source.Change.{Change};
ghost use Rattle.link_rules.specs.declared.config.LinkConfig.{LinkConfig};
ghost use Rattle.link_rules.specs.State.{new_link};
ghost use Rattle.link_rules.specs.Step.{Happening, after_all};
ghost use Rattle.link_following.specs.Book.{Book, ComeOf};
ghost use Rattle.warm_logs.specs.Reporting.{AreFollowingOn};
ghost use Rattle.warm_links.specs.Eras.{Eras, IsSoundByEra, KeepEras};

/// Take for each subscription a list of all its messages, of which no two have the same number, in eras: in the messages of
/// one era each value of an item is a change of the source that is linked to the value of that item before it. Where whatever
/// data come to a link, of the subscription that it remembers, are one of that one's messages, and of one era as long as the
/// link's items report without a break, each value that the link tells is a change of the source; and one that comes while
/// the items report is linked to the one that was told before it of the same item, since they began to report and since messages were
/// missing last: whatever is lost, comes late or comes twice.
pub fn values_of_a_reporting_link_follow()
    ensures { (config : LinkConfig) (happenings : List Happening) (source : List Change) (book : Book) (eras : Eras)
        → IsSoundByEra source config.items book eras → ComeOf book happenings (new_link config)
        → KeepEras book eras 0 happenings (new_link config) false
        → AreFollowingOn source config.items (reverse (after_all happenings (new_link config)).notices) }
{
    link_takings::steps_make_courses();
    link_laws::items_are_made_once();
}
