// The binary ladder of a version.
ghost use Rattle.std.specs.Prelude.{◌≡◌, ◌+◌, ◌-◌, ◌<◌, ◌≤◌, ◌^◌, length, take, drop, slice_set};
ghost use Rattle.hash.specs.Bytes.{padded};
ghost use Rattle.tree.specs.Ladder.{halve, ladder, ladder_within, ladder_capacity};

// The versions in their order with zeros after them, and how many they are.
// An array with a count: there is no heap.
// Beside Frontier: a struct over `[T; N]` would owe T's size below 2^63 at a use; clauses name `versions`, `positions`.
#[derive(Clone, Copy)]
pub struct Ladder {
    pub versions: [u32; Ladder::CAPACITY],
    pub length: usize,
}

impl Ladder {
    // The most versions that a ladder within 32 bits has.
    pub const CAPACITY: usize = 64;

    // The ladder of a version; none for 2^32 - 1, whose ladder has versions beyond 32 bits (001,
    // 5).
    pub fn of(version: u32) -> Ladder
        ensures { (result.versions ≡ padded ladder_capacity (ladder_within version))
            × (result.length ≡ length (ladder_within version)) }
    {
        if version == u32::MAX {
            let versions = [0u32; Ladder::CAPACITY];
            return Ladder {
                versions,
                length: 0,
            };
        }
        halved(version, climbed(version))
    }

    // One version more.
    fn push(&mut self, version: u32)
        requires { self.old.length < ladder_capacity }
        ensures { (self.new.versions ≡ slice_set self.old.versions self.old.length version)
            × (self.new.length ≡ self.old.length + 1) }
    {
        self.versions[self.length] = version;
        self.length += 1;
    }
}

// The versions up to the first above the version asked for, which is `high`; `low` is the one
// before it.
#[derive(Clone, Copy)]
struct Climb {
    ladder: Ladder,
    low: u32,
    high: u32,
}

// The climb of a ladder: 0, 1, 3, 7 and so on. How many there are shows only in the loop.
fn climbed(version: u32) -> Climb
    requires { version < 2 ^ 32 - 1 }
    ensures stored { result.ladder.versions ≡ padded ladder_capacity (take result.ladder.length (ladder version)) }
    ensures left { drop result.ladder.length (ladder version) ≡ halve result.high version result.low result.high }
    ensures bounds { (result.ladder.length ≤ length (ladder version)) × (result.low < result.high) }
{
    let mut ladder = Ladder {
        versions: [0u32; Ladder::CAPACITY],
        length: 0,
    };
    let mut low: u32 = 0;
    let mut high: u32 = 0;
    while high <= version {
        ladder.push(high);
        low = high;
        high = 2 * high + 1;
    }
    ladder.push(high);
    Climb { ladder, low, high }
}

// The whole ladder, from its climb: halving between `low` and `high` until they are neighbours, which shows
// only in the loop.
fn halved(version: u32, climb: Climb) -> Ladder
    requires version_bound { version < 2 ^ 32 - 1 }
    requires stored { climb.ladder.versions ≡ padded ladder_capacity (take climb.ladder.length (ladder version)) }
    requires left { drop climb.ladder.length (ladder version) ≡ halve climb.high version climb.low climb.high }
    requires bounds { (climb.ladder.length ≤ length (ladder version)) × (climb.low < climb.high) }
    ensures { (result.versions ≡ padded ladder_capacity (ladder version))
        × (result.length ≡ length (ladder version)) }
{
    let mut ladder = climb.ladder;
    let mut low = climb.low;
    let mut high = climb.high;
    while 1 < high - low {
        let middle = low + (high - low) / 2;
        ladder.push(middle);
        if middle <= version {
            low = middle;
        } else {
            high = middle;
        }
    }
    ladder
}
