ghost use Rattle.std.specs.Prelude.{◌≡◌};
ghost use Rattle.failover_core.specs.Choice.{better, best_of, choose, comes_first, goes_before, has_data, is_active};

/// The lowest ServiceLevel of a server that has data (OPC 10000-4, 6.6.2.4.2).
const LEAST_LEVEL: u8 = 2;

/// A server that is ready, with the ServiceLevel that was read of it last.
#[derive(Clone, Copy, Debug, PartialEq, Eq)]
pub struct Candidate {
    /// Its number.
    pub server: u8,
    /// Its ServiceLevel: 0 is Maintenance, 1 is NoData, and of the others a higher one is a better one (OPC 10000-4,
    /// 6.6.2.4.2).
    pub level: u8,
}

impl Candidate {
    /// Whether its level says that it has data.
    fn has_data(&self) -> bool
        ensures { result ≡ has_data self.now }
    {
        self.level >= LEAST_LEVEL
    }

    /// Whether it is the better choice of the two.
    fn goes_before(&self, other: &Candidate, active: Option<u8>) -> bool
        ensures { result ≡ goes_before active self.now other.now }
    {
        self.level > other.level
            || (self.level == other.level && comes_first(active, self.server, other.server))
    }
}

/// Whether this server is the active one.
pub(crate) fn is_active(active: Option<u8>, server: u8) -> bool
    ensures { result ≡ is_active active server }
{
    match active {
        Some(active) => active == server,
        None => false,
    }
}

/// Which of two servers of one level comes first: the active one, else the one of the lower number.
fn comes_first(active: Option<u8>, server: u8, other: u8) -> bool
    ensures { result ≡ comes_first active server other }
{
    !is_active(active, other) && (is_active(active, server) || server < other)
}

/// The better of the best one so far and one more.
fn better(active: Option<u8>, best: Option<Candidate>, one: Candidate) -> Option<Candidate>
    ensures { result ≡ better active best one }
{
    match best {
        None if one.has_data() => Some(one),
        Some(best) if one.goes_before(&best, active) => Some(one),
        best => best,
    }
}

/// The best of all.
fn best_of(ready: &[Candidate], active: Option<u8>) -> Option<Candidate>
    ensures { result ≡ best_of ready.now active }
{
    let mut best = None;
    for one in ready {
        best = better(active, best, *one);
    }
    best
}

/// Chooses among the servers that are ready: of those with data, which have level 2 or more, one of the highest level.
/// A tie keeps the active one, else the lowest number is taken. There is none where no server has data. Which numbers
/// servers have is the caller's affair.
pub fn choose(ready: &[Candidate], active: Option<u8>) -> Option<u8>
    ensures { result ≡ choose ready.now active }
{
    match best_of(ready, active) {
        Some(best) => Some(best.server),
        None => None,
    }
}
