//! Ids and tokens of a life, and of two lives.
ghost use Rattle.std.specs.Prelude.{◌≡◌, ◌<◌, ◌∷◌, ◌*◌, ◌+◌, ◌-◌, ◌^◌, ◌⊎◌, [], ℕ, List, map};
ghost use Rattle.ua_base.specs.Number.{after_message};
ghost use Rattle.set_model.specs.declared.source.Change.{Change};
ghost use Rattle.sessions.specs.Token.{token_of};
ghost use Rattle.ua_session_msgs.specs.declared.channel.OpenSecureChannelResponse.{OpenSecureChannelResponse};
ghost use Rattle.server_rules.specs.declared.config.ServerConfig.{ServerConfig};
ghost use Rattle.server_rules.specs.Said.{Opened, Said};
ghost use Rattle.server_rules.specs.State.{ServerState, new_server};
ghost use Rattle.server_rules.specs.Step.{Happening, after};
ghost use Rattle.server_laws.specs.Course.{Issuing, leave_of, said_after};
ghost use Rattle.server_laws.specs.Facts.{IsWithin, RiseBetween, facts_said, ids_in, tokens_in};
ghost use Rattle.server_laws.specs.Opened.{AreNext, IsOpened, opened_in};

/// The ids that good CreateSubscription responses give rise, so none comes twice; and each lies among those of the
/// boot number.
pub fn subscription_ids_are_given_once()
    ensures { (config : ServerConfig) (current : List Change) (happenings : List Happening)
        → RiseBetween (config.boot * 65536) (config.boot * 65536 + 65535)
        (ids_in (facts_said (said_after happenings (new_server config current)))) }
{}

/// The tokens that good CreateSession responses give are those of the boot number and of counters that rise, so none
/// comes twice.
pub fn session_tokens_are_given_once()
    ensures { (config : ServerConfig) (current : List Change) (happenings : List Happening)
        → (counters : List ℕ) × RiseBetween 0 (2 ^ 32 - 1) counters
        × (tokens_in (facts_said (said_after happenings (new_server config current)))
        ≡ map (token_of config.boot) counters) }
{}

/// An id of a subscription, and a token of a session, tell their life: two lives that gave one have one boot number.
pub fn lives_share_no_ids()
    ensures ids { (one other : ServerConfig) (current another : List Change) (happenings others : List Happening) (id : ℕ)
        → IsWithin (id ∷ []) (ids_in (facts_said (said_after happenings (new_server one current))))
        → IsWithin (id ∷ []) (ids_in (facts_said (said_after others (new_server other another))))
        → one.boot ≡ other.boot }
    ensures tokens { (one other : ServerConfig) (current another : List Change) (happenings others : List Happening)
        (token : List ℕ) → one.boot < 2 ^ 16 → other.boot < 2 ^ 16
        → IsWithin (token ∷ []) (tokens_in (facts_said (said_after happenings (new_server one current))))
        → IsWithin (token ∷ []) (tokens_in (facts_said (said_after others (new_server other another))))
        → one.boot ≡ other.boot }
{
    sessions::tokens_tell_apart();
}

/// The number of the secure channel that was issued last is 0 at first, and changes only where an OPN is taken: to the
/// next one, which after 4294967295 is 1.
pub fn channel_ids_rise()
    ensures first { (config : ServerConfig) (current : List Change) → (new_server config current).channels_given ≡ 0 }
    ensures next { (happening : Happening) (s : ServerState)
        → let given = (after happening s).state.channels_given in
        (given ≡ s.channels_given) ⊎ ((leave_of happening ≡ Issuing) × (given ≡ after_message s.channels_given)) }
{}

/// An OpenSecureChannel response tells the id and the token of the secure channel of the connection on which it is
/// said, and it is said under them. Where none was open there, the id is the next one, and the token 1; else the id is
/// that of the open one, and the token the next. The ids of the channels that are so opened rise from 1, and after
/// 4294967295 comes 1; some may be left out.
pub fn channel_ids_are_told()
    ensures told { (happening : Happening) (s : ServerState) (said : Said) (request : ℕ) (r : OpenSecureChannelResponse)
        → IsWithin (said ∷ []) (after happening s).said → said.told ≡ Opened request r
        → IsOpened said r s (after happening s).state }
    ensures rise { (config : ServerConfig) (current : List Change) (happenings : List Happening)
        → AreNext (opened_in happenings (new_server config current)) }
{}
