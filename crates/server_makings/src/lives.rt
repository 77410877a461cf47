//! Which of the items that a life's moves make are made by the calls of a subscription.
ghost use Rattle.std.specs.Prelude.{◌≡◌, ℕ, List, reverse};
ghost use Rattle.subscription.specs.declared.spec.ItemSpec.{ItemSpec};
ghost use Rattle.subscription.specs.declared.spec.SubSpec.{SubSpec};
ghost use Rattle.subscription.specs.History.{Call};
ghost use Rattle.server_laws.specs.Bounded.{items_in};
ghost use Rattle.server_laws.specs.Facts.{IsWithin};
ghost use Rattle.server_laws.specs.Lives.{Lives, Unborn, life_after};
ghost use Rattle.server_laws.specs.Moves.{Core, Move};
ghost use Rattle.server_makings.specs.Asked.{AreMadeOf, AskedItem, made_in};
ghost use Rattle.server_makings.specs.Since.{IsMadeSince};

/// The items that the calls of a subscription make, told newest first, are in order among those that the moves make
/// under its id. Where it lives they are exactly those that are made since it was made itself.
pub fn lives_have_what_was_made()
    ensures within { (id : ℕ) (moves : List Move) (c : Core)
        → IsWithin (reverse (items_in (life_after id moves c Unborn))) (made_in id moves) }
    ensures since { (id : ℕ) (moves : List Move) (c : Core) (spec : SubSpec) (start : ℕ) (calls : List Call)
        → life_after id moves c Unborn ≡ Lives spec start calls → IsMadeSince id moves spec start calls }
{}

/// Some of the items that are made of those that were asked for are made of them too.
pub fn fewer_are_made_too()
    ensures { (items : ℕ) (some all : List ItemSpec) (asked : List AskedItem) → IsWithin some all
        → AreMadeOf items all asked → AreMadeOf items some asked }
{}
