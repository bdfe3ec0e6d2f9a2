//! Counts of lines.

ghost use Rattle.std.specs.Prelude.{◌≡◌, ◌+◌, ◌<◌, ◌^◌};
ghost use Rattle.acn_route.specs.Counting.{total};
ghost use Rattle.acn_route.specs.Routing.{with_line};

/// What the line of a packet says.
#[derive(Clone, Copy)]
pub enum LineKind {
    /// A value that fills the packet.
    Good,
    /// A value with whole octets behind it.
    Long,
    /// Why no value can be read.
    Bad,
    /// That the packet has no route.
    Unrouted,
}

/// How many lines of each kind there are.
#[derive(Clone, Copy)]
pub struct RouteCount {
    /// Lines of values that fill their packets.
    pub good: u64,
    /// Lines of values with whole octets behind them.
    pub long: u64,
    /// Lines of packets in which no value can be read.
    pub bad: u64,
    /// Lines of packets without a route.
    pub none: u64,
}

/// Counts one line more.
pub fn count(counts: &mut RouteCount, kind: LineKind)
    requires { total counts.old + 1 < 2 ^ 64 }
    ensures { counts.new ≡ with_line kind counts.old }
{
    match kind {
        LineKind::Good => counts.good += 1,
        LineKind::Long => counts.long += 1,
        LineKind::Bad => counts.bad += 1,
        LineKind::Unrouted => counts.none += 1,
    }
}

/// How many lines there are.
pub fn all(counts: &RouteCount) -> u64
    requires { total counts.now < 2 ^ 64 }
    ensures { result ≡ total counts.now }
{
    counts.good + counts.long + counts.bad + counts.none
}
