//! What a link asks for.

ghost use Rattle.std.specs.Prelude.{◌≡◌, false, List, ◌++◌, ◌≤◌, length};
ghost use Rattle.ua_base.specs.declared.modes.Mode.{Mode};
ghost use Rattle.link_rules.specs.State.{LinkState, is_ready};
ghost use Rattle.link_rules.specs.Step.{Happening, after, after_all};
ghost use Rattle.link_laws.specs.Taken.{id_in, reply_of};
ghost use Rattle.link_laws.specs.Setting.{losts_told, modes_confirmed, modes_put, modes_sent, pending, wishes_in};
ghost use Rattle.link_laws.specs.Asked.{MakesItems, NeverAsks, NeverWants, items_put};

/// A SetMonitoringMode is put for a mode only where the client wanted that mode. So where it never wants Disabled none for
/// Disabled is put.
pub fn modes_are_wanted()
    ensures { (mode : Mode) (happenings : List Happening) (l : LinkState) → is_ready l ≡ false → NeverWants mode happenings
        → NeverAsks mode (after_all happenings l).said }
{}

/// Each SetMonitoringMode that is put is told at once, and they are no more than the wishes of the client, since the link
/// wasn't ready. While it isn't lost, the modes that are confirmed are those that were put, in their order, and at most
/// one of these, the last, isn't confirmed yet.
pub fn modes_are_confirmed()
    ensures told { (happenings : List Happening) (l : LinkState)
        → modes_put (after_all happenings l).said ≡ modes_sent (after_all happenings l).notices }
    ensures confirmed { (happenings : List Happening) (l : LinkState) → losts_told (after_all happenings l).notices ≡ 0
        → modes_confirmed (after_all happenings l).notices ++ pending (after_all happenings l).link
        ≡ pending l ++ modes_put (after_all happenings l).said }
    ensures few { (happenings : List Happening) (l : LinkState) → is_ready l ≡ false
        → length (modes_put (after_all happenings l).said) ≤ wishes_in happenings }
{}

/// A CreateMonitoredItems is put only in the step in which a CreateSubscription reply is taken: one at most, for the
/// subscription of that reply, and for all items of the configuration, which never changes.
pub fn items_are_made_once()
    ensures once { (h : Happening) (l : LinkState)
        → MakesItems (id_in (reply_of h)) l.config (items_put (after h l).said) }
    ensures config { (happenings : List Happening) (l : LinkState) → (after_all happenings l).link.config ≡ l.config }
{}
