//! Which ends are there.
ghost use Rattle.std.specs.Prelude.{◌≡◌, ℕ, is_some, List};
ghost use Rattle.set_model.specs.declared.source.Change.{Change};
ghost use Rattle.ua_channel.specs.Sharing.{end_at};
ghost use Rattle.server_rules.specs.declared.config.ServerConfig.{ServerConfig};
ghost use Rattle.server_rules.specs.State.{conn_at};
ghost use Rattle.server_laws.specs.Numbers.{conn_numbers};
ghost use Rattle.ua_server.specs.declared.event.ServerEvent.{ServerEvent};
ghost use Rattle.ua_server.specs.State.{BytesState, new_bytes};
ghost use Rattle.ua_server.specs.Step.{stepped};
ghost use Rattle.server_ends.specs.Matching.{Matches, bytes_after, end_numbers};

/// After any events, told newest first, a server over bytes has an end for each of its connections and no other one, in
/// the order of their numbers. So bytes are heard on a connection exactly where it has an end.
pub fn ends_are_of_connections()
    ensures first { (config : ServerConfig) (current : List Change) → Matches (new_bytes config current) }
    ensures step { (event : ServerEvent) (s : BytesState) → Matches s → Matches (stepped event s) }
    ensures life { (config : ServerConfig) (current : List Change) (events : List ServerEvent)
        → let s = bytes_after events (new_bytes config current) in end_numbers s ≡ conn_numbers s.hub }
    ensures there { (config : ServerConfig) (current : List Change) (events : List ServerEvent) (conn : ℕ)
        → let s = bytes_after events (new_bytes config current) in
        is_some (end_at conn s.channels) ≡ is_some (conn_at conn s.hub.conns) }
{
    server_laws::connections_are_those_opened();
}
