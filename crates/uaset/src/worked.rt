//! The definitions, computed on worked scenarios. What each report must be was worked out by hand.
ghost use Rattle.std.specs.Prelude.{◌≡◌, ◌++◌, Ok, Err, codes};
ghost use Rattle.scenario.specs.declared.fault.FaultKind.TheVariants.{TimeNotRising};
ghost use Rattle.uaset.specs.Answer.{answer_of};

/// What `answer_of` says of small scenarios: a first change is delivered; nothing is; an overflow is told; what fits
/// the queue is not; an overflow after a take is; what another server delivered is not delivered again; a restart is
/// told as late; a restart without a change between is not; picoseconds order changes of one time; a queue that
/// discards its newest entry marks what took its place; a time that does not rise is refused.
pub(crate) fn worked_scenarios_have_their_reports()
    ensures first { answer_of 0 (codes "set direct 1\nitems 1 queue 2\nchange 1 10 5\nfeed 1 1\ntake 1 9\nend\n")
        ≡ Ok (codes "data 1 10 5\ndone 1\n") }
    ensures none { answer_of 0 (codes "set direct 1\nitems 1 queue 2\nend\n")
        ≡ Ok (codes "done 0\n") }
    ensures overflow { answer_of 0 (codes "set direct 1\nitems 1 queue 2\nchange 1 10 1\nfeed 1 1\ntake 1 9\n"
        ++ codes "change 1 20 2\nchange 1 30 3\nchange 1 40 4\nfeed 1 3\ntake 1 9\nend\n")
        ≡ Ok (codes "data 1 10 1\ngap 1 overflow\ndata 1 30 3\ndata 1 40 4\ndone 3\n") }
    ensures fitting { answer_of 0 (codes "set direct 1\nitems 1 queue 2\nchange 1 10 1\nfeed 1 1\ntake 1 9\n"
        ++ codes "change 1 20 2\nchange 1 30 3\nfeed 1 2\ntake 1 9\nend\n")
        ≡ Ok (codes "data 1 10 1\ndata 1 20 2\ndata 1 30 3\ndone 3\n") }
    ensures after_a_take { answer_of 0 (codes "set direct 1\nitems 1 queue 3\nchange 1 10 1\nchange 1 20 2\n"
        ++ codes "change 1 30 3\nfeed 1 3\ntake 1 1\nchange 1 40 4\nchange 1 50 5\nfeed 1 2\ntake 1 9\nend\n")
        ≡ Ok (codes "data 1 10 1\ngap 1 overflow\ndata 1 30 3\ndata 1 40 4\ndata 1 50 5\ndone 4\n") }
    ensures two_servers { answer_of 0 (codes "set direct 2\nitems 1 queue 2\nchange 1 10 1\nchange 1 20 2\n"
        ++ codes "change 1 30 3\nfeed 1 2\ntake 1 9\nfeed 1 1\ntake 1 9\nfeed 2 3\ntake 2 9\nchange 1 40 4\n"
        ++ codes "feed 2 1\ntake 2 9\nend\n")
        ≡ Ok (codes "data 1 10 1\ndata 1 20 2\ndata 1 30 3\ndata 1 40 4\ndone 4\n") }
    ensures restart { answer_of 0 (codes "set direct 1\nitems 1 queue 2\nchange 1 10 5\nfeed 1 1\ntake 1 9\nstop 1\n"
        ++ codes "change 1 20 6\nstart 1\ntake 1 9\nend\n")
        ≡ Ok (codes "data 1 10 5\ngap 1 late\ndata 1 20 6\ndone 2\n") }
    ensures nothing_missed { answer_of 0 (codes "set direct 1\nitems 1 queue 2\nchange 1 10 5\nfeed 1 1\ntake 1 9\n"
        ++ codes "stop 1\nstart 1\ntake 1 9\nchange 1 20 6\nfeed 1 1\ntake 1 9\nend\n")
        ≡ Ok (codes "data 1 10 5\ndata 1 20 6\ndone 2\n") }
    ensures picoseconds { answer_of 0 (codes "set direct 1\nitems 1 queue 2\nchange 1 10 1\nchange 1 10.7 2\nfeed 1 2\n"
        ++ codes "take 1 9\nend\n")
        ≡ Ok (codes "data 1 10 1\ndata 1 10.7 2\ndone 2\n") }
    ensures newest_discarded { answer_of 0 (codes "set direct 1\nitems 1 queue 3 discard newest\nchange 1 10 1\n"
        ++ codes "change 1 20 2\nchange 1 30 3\nchange 1 40 4\nfeed 1 4\ntake 1 1\nchange 1 50 5\nfeed 1 1\n"
        ++ codes "take 1 9\nend\n")
        ≡ Ok (codes "data 1 10 1\ndata 1 20 2\ngap 1 overflow\ndata 1 40 4\ndata 1 50 5\ndone 4\n") }
    ensures refused { answer_of 0 (codes "set direct 1\nitems 1 queue 2\nchange 1 10 5\nchange 1 10 6\nend\n")
        ≡ Err (record { line = 4; kind = TimeNotRising }) }
{}
