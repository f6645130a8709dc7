ghost use Rattle.std.specs.Prelude.{◌≡◌, ◌*◌, min};
ghost use Rattle.port_manager.specs.Waits.{later, left};

/// How long a port waits, in milliseconds.
#[derive(Clone, Copy, Debug, PartialEq, Eq)]
pub struct Times {
    /// After a module was plugged, until its management interface answers.
    pub settle: u32,
    /// Between two looks at a module that is as it is wanted.
    pub period: u32,
    /// After a first failure.
    pub first: u32,
    /// After a failure at most.
    pub most: u32,
    /// After a module was left alone, until it is read and judged anew; if 0, that waits until somebody asks.
    pub recheck: u32,
}

/// The moment so many milliseconds after this one; the last there is, if there is none.
pub fn later(now: u64, wait: u32) -> u64
    ensures { result ≡ later now wait }
{
    now.saturating_add(u64::from(wait))
}

/// How long it is until a later moment; the longest wait there is, if it is longer.
pub fn left(now: u64, due: u64) -> u32
    ensures { result ≡ left now due }
{
    let wait = due.saturating_sub(now);
    if wait < u64::from(u32::MAX) {
        wait as u32
    } else {
        u32::MAX
    }
}

/// What is waited after the next failure if this was waited after one.
pub fn doubled(wait: u32, most: u32) -> u32
    ensures { result ≡ min (2 * wait) most }
{
    let twice = 2 * u64::from(wait);
    if twice < u64::from(most) {
        twice as u32
    } else {
        most
    }
}
