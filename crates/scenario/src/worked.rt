//! The definition of lines made from a seed, computed. What each scenario must be was worked out apart from this code.
ghost use Rattle.std.specs.Prelude.{◌≡◌, ◌++◌, codes};
ghost use Rattle.scenario.specs.Generate.{generated};
ghost use Rattle.scenario.specs.Texts.{written};

/// What `generated` says of three seeds.
pub(crate) fn seeds_have_their_scenarios()
    ensures first { written (generated 1 12) ≡ codes "set cold 2\nitems 1 queue 5\nfeed 2 3\nchange 1 7 1\n"
        ++ codes "change 1 10 2\nchange 1 13 3\nlevel 2 212\npass 4\npass 7\n"
        ++ codes "change 1 22 4\nchange 1 24 5\nend\n" }
    ensures second { written (generated 7 12) ≡ codes "set cold 4\nitems 2 queue 7\nfeed 4 2\npass 4\ntick 300\n"
        ++ codes "tick 150\ntick 500\npass 6\npiece 45\nfeed 1 2\nfeed 3 3\n"
        ++ codes "end\n" }
    ensures third { written (generated 2026 24) ≡ codes "set hot 3\nitems 2 queue 6\npass 1\nfeed 3 2\nfeed 3 3\n"
        ++ codes "cut 2\nfree 1\nfeed 3 1\nchange 2 1 1\nfeed 2 2\n"
        ++ codes "change 2 10 2\nfeed 3 2\nchange 2 15 3\nchange 1 23 4\n"
        ++ codes "change 1 30 5\nstop 1\npass 8\ncut 1\npass 1\ntick 150\n"
        ++ codes "feed 3 3\nchange 2 40 6\nlevel 3 182\nend\n" }
{}
