ghost use Rattle.std.specs.Prelude.{List};
ghost use Rattle.std.specs.List.{AllByRecursion};
ghost use Rattle.client_rules.specs.declared.config.ClientConfig.{ClientConfig};
ghost use Rattle.client_rules.specs.Step.{Moment, after_all, new_client};
ghost use Rattle.client_keeps.specs.Fitting.{FitsClient, FitsConfig, FitsMoment, KeepsAct};

/// Where a client's urls have at most 4070 bytes and what it hears keeps the limits, so does what it says to its servers,
/// but for a Publish with more than 65,536 acknowledgements. So do its links.
pub fn what_is_said_keeps_the_limits()
    ensures said { (config : ClientConfig) (moments : List Moment) → FitsConfig config → AllByRecursion FitsMoment moments
        → AllByRecursion KeepsAct (after_all moments (new_client config)).acts }
    ensures client { (config : ClientConfig) (moments : List Moment) → FitsConfig config → AllByRecursion FitsMoment moments
        → FitsClient (after_all moments (new_client config)).client }
{}
