//! The switches in a client's log.

ghost use Rattle.std.specs.Prelude.{◌≡◌, List};
ghost use Rattle.client_rules.specs.declared.config.ClientConfig.{ClientConfig};
ghost use Rattle.client_rules.specs.Step.{Moment};
ghost use Rattle.client_laws.specs.Life.{acts_of, client_after};
ghost use Rattle.client_links.specs.Switching.{switch_lines, switches_of};

/// The switch lines of a client's log are its switches, one after another: so what is said of each switch among its acts is
/// said of each of these lines.
pub fn switch_lines_are_switches()
    ensures { (config : ClientConfig) (moments : List Moment)
        → switch_lines (client_after config moments).log.lines ≡ switches_of (acts_of config moments) }
{
    client_laws::logs_are_of_their_acts();
}
