// The times of the entries of a response (paper 01, Sixteen numbers: 11).
ghost use Rattle.std.specs.Prelude.{◌≡◌};
ghost use Rattle.checks.specs.Entries.{no_timestamps, timestamps_after, near_clock, fits_kept};

// The time of the latest entry, 0 where there is none, and whether all times fit so far.
// `fit` is a flag and no early end: what shape is asked (9) is told of all entries, whatever their times.
#[derive(Clone, Copy)]
pub(crate) struct Timestamps {
    pub latest: u64,
    pub fit: bool,
}

impl Timestamps {
    // No entry so far.
    pub(crate) fn start() -> Timestamps
        ensures { result ≡ no_timestamps }
    {
        Timestamps {
            latest: 0,
            fit: true,
        }
    }

    // An entry more, by its position and time: the time must not be earlier than the latest, and,
    // of a position below the kept size, not later than the kept time, of all others not earlier.
    pub(crate) fn next(
        self,
        position: u64,
        timestamp: u64,
        kept_size: u64,
        kept_timestamp: u64,
    ) -> Timestamps
        ensures { result ≡ timestamps_after kept_size kept_timestamp self position timestamp }
    {
        let fits = timestamp_fits(position, timestamp, kept_size, kept_timestamp);
        Timestamps {
            latest: timestamp,
            fit: self.fit & (self.latest <= timestamp) & fits,
        }
    }
}

// Whether the time of an entry, by its position, fits the kept size and time.
fn timestamp_fits(position: u64, timestamp: u64, kept_size: u64, kept_timestamp: u64) -> bool
    ensures { result ≡ fits_kept position timestamp kept_size kept_timestamp }
{
    if position < kept_size {
        timestamp <= kept_timestamp
    } else {
        kept_timestamp <= timestamp
    }
}

// Whether a time is not too far ahead of the clock, nor too far behind it.
pub(crate) fn near_clock(timestamp: u64, clock: u64, ahead: u64, behind: u64) -> bool
    ensures { result ≡ near_clock timestamp clock ahead behind }
{
    if clock < timestamp {
        timestamp - clock <= ahead
    } else {
        clock - timestamp <= behind
    }
}
