//! Levels that are read and told.
ghost use Rattle.std.specs.List.{AllByRecursion};
ghost use Rattle.link_rules.specs.Said as link;
ghost use Rattle.link_rules.specs.State.{LinkState};
ghost use Rattle.link_rules.specs.Step as alone;
ghost use Rattle.server_rules.specs.State.{ServerState};
ghost use Rattle.server_rules.specs.Step.{Happening, after};
ghost use Rattle.level_readings.specs.Levels.{AsksForLevel, IsLevelSaid, IsRead};

/// Each level that a link tells is the first value of a Read response that comes in the same event; and each Read that it puts
/// asks for ServiceLevel first.
pub fn levels_are_read_first()
    ensures told { (h : alone.Happening) (l : LinkState) → AllByRecursion (IsRead h) (alone.after h l).notices }
    ensures asked { (h : alone.Happening) (l : LinkState)
        → AllByRecursion (λ (said : link.Said). AsksForLevel said.told) (alone.after h l).said }
{}

/// A server says a Read response only where it hears a Read, on the same connection; and where ServiceLevel is asked for
/// first, the first value is the level that the server has then.
pub fn levels_are_those_of_the_server()
    ensures { (happening : Happening) (s : ServerState) → AllByRecursion (IsLevelSaid happening s) (after happening s).said }
{}
