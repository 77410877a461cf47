//! The client's choice.

ghost use Rattle.std.specs.Prelude.{◌≡◌, ◌≤◌, ◌++◌, ◌∷◌, ℕ, List};
ghost use Rattle.failover_core.specs.Laws.{IsBest};
ghost use Rattle.client_rules.specs.declared.config.ClientConfig.{ClientConfig};
ghost use Rattle.client_rules.specs.State.{servers_of};
ghost use Rattle.client_rules.specs.Acts.{ClientAct, Switches};
ghost use Rattle.client_rules.specs.Step.{Moment};
ghost use Rattle.client_laws.specs.Life.{acts_of};
ghost use Rattle.client_laws.specs.Choosing.{AreChoices, candidates_of, nothing_told, switches_in, tidings_in, told_after};

/// Each switch goes from the server that the switch before it went to, to another one, which is chosen among the servers that
/// the acts before it tell to be ready, by the levels that they tell to have been read last.
pub fn switches_are_choices()
    ensures { (config : ClientConfig) (moments : List Moment)
        → AreChoices (acts_of config moments) (nothing_told (servers_of config)) }
{}

/// A switch to a server goes to one that is ready, has a level of 2 or more, and none that is ready has a higher level; of
/// several of that level it is the active one, if that is among them, and else the one of the lowest number (OPC 10000-4,
/// 6.6.2.4.2).
pub fn switches_go_to_the_best()
    ensures { (config : ClientConfig) (moments : List Moment) (front back : List ClientAct) (from to : ℕ)
        → acts_of config moments ≡ front ++ Switches from to ∷ back → 1 ≤ to
        → IsBest (candidates_of (told_after front (nothing_told (servers_of config))))
        (told_after front (nothing_told (servers_of config))).active to }
{}

/// There are no more switches than times at which a server told that it is ready or lost or what its level is: a choice
/// stays until one does.
pub fn switches_are_few()
    ensures { (config : ClientConfig) (moments : List Moment)
        → switches_in (acts_of config moments) ≤ tidings_in (acts_of config moments) }
{}
