//! A client's links.

ghost use Rattle.std.specs.Prelude.{◌≡◌, ◌≤◌, ◌<◌, ◌⊎◌, ℕ, List, []};
ghost use Rattle.client_rules.specs.declared.config.ClientConfig.{ClientConfig};
ghost use Rattle.client_rules.specs.State.{servers_of};
ghost use Rattle.client_rules.specs.Step.{Moment};
ghost use Rattle.client_laws.specs.Life.{acts_of};
ghost use Rattle.client_links.specs.Links.{IsLinkLife, told_of};

/// What a client's acts tell of one server is the life of a link alone: there are happenings of a link from its beginning
/// on, after which it stands as the client's link to the server does; it tells what the server's link told; and the
/// connections that are opened, what is heard on them and what is said on them are the same, in the same order. In a hot or
/// a cold set that link is never wanted to have its items off. And where what comes to the client is awaited, so is what
/// comes to the link; time passes for it at most as often as for the client.
pub fn links_live_in_clients()
    ensures { (config : ClientConfig) (moments : List Moment) (server : ℕ) → 1 ≤ server → server ≤ servers_of config
        → IsLinkLife server config moments }
{}

/// Of a server that the client doesn't have its acts tell nothing.
pub fn others_tell_nothing()
    ensures { (config : ClientConfig) (moments : List Moment) (server : ℕ) → (server ≡ 0) ⊎ (servers_of config < server)
        → told_of server (acts_of config moments) ≡ [] }
{}
