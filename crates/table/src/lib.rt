// Ids in ascending order: where one stands, where a new one would, and whether they are in order.
#![tactic(auto)]

ghost use Rattle.std.specs.Prelude.{◌≡◌, cond, take};
ghost use Rattle.table.specs.Find.{find_in};
ghost use Rattle.table.specs.Tables.{absent};
ghost use Rattle.table.specs.Test.{ids_test};
ghost use Rattle.table.specs.Named.{id_of, same};
ghost use Rattle.table.specs.Seen.{seen, put_seen};
ghost use Rattle.table.specs.Spots.{spot_by, at_spot};

/// How many rows a table has room for.
pub const ROOM: usize = 64;

/// Where a row is read and written: the place of its id, 0 where it has none, and the place at which it would be let in.
// Not a `Result`: its clause says both places, and a caller reads a row at `at` even where nothing is there.
#[derive(Clone, Copy)]
pub struct Spot {
    pub here: bool,
    pub at: usize,
    pub slot: usize,
}

/// The id that is named, 0 where none is.
pub fn id_of(key: Option<u64>) -> u64
    ensures { result ≡ id_of key }
{
    key.unwrap_or(0)
}

/// Whether both name one id. Where nothing is named there is none, so this is not `==`.
pub fn same(a: Option<u64>, b: Option<u64>) -> bool
    ensures { result ≡ same a b }
{
    let (Some(i), Some(j)) = (a, b) else {
        return false;
    };
    i == j
}

/// Looks for `id` among the first `len` ids, which rise: the range is halved until it is empty. For 64 ids that is after at most
/// seven looks. `Ok` is where it stands, `Err` the place at which it would be let in, as std's `binary_search` answers.
// The loop stays: `binary_search` says nothing of ids that do not rise, and `find_in` says which place is answered for these too.
pub fn find(ids: &[u64], len: usize, id: u64) -> Result<usize, usize>
    ensures { result ≡ find_in (take len ids.now) id }
{
    let count = len.min(ids.len());
    let mut lo = 0;
    let mut hi = count;
    while lo < hi {
        let mid = lo + (hi - lo) / 2;
        if ids[mid] < id {
            lo = mid + 1;
        } else {
            hi = mid;
        }
    }
    if count <= lo {
        return Err(lo);
    }
    if ids[lo] == id {
        return Ok(lo);
    }
    Err(lo)
}

/// Whether the first `len` ids ascend strictly and the rest are 0. Id 0 is an ordinary id.
pub fn ids_sound(ids: &[u64; 64], len: usize) -> bool
    ensures { result ≡ ids_test 64 len ids.now }
{
    let mut ok = true;
    let mut prev: u64 = 0;
    for i in 0..64 {
        let x = ids[i];
        // `&` and `|`: no test is skipped, so a turn is one equation.
        ok = ok & (((i < len) & ((i == 0) | (prev < x))) | ((len <= i) & (x == 0)));
        prev = x;
    }
    (len <= 64) & ok
}

/// The spot of a named row among the first `len` ids.
pub fn spot_by(ids: &[u64], len: usize, key: Option<u64>) -> Spot
    ensures { result ≡ spot_by (take len ids.now) key }
{
    let Some(id) = key else {
        return Spot {
            here: false,
            at: 0,
            slot: 0,
        };
    };
    match find(ids, len, id) {
        Ok(at) => Spot {
            here: true,
            at,
            slot: at,
        },
        Err(slot) => Spot {
            here: false,
            at: 0,
            slot,
        },
    }
}

/// What a table keeps beside an id.
pub trait Row {
    ghost empty: { Self };

    /// The row of a place that is not in use.
    fn empty() -> Self
        ensures { result ≡ empty };
}

/// A row that was looked up: whether it is there, and the row.
// Not an `Option`: the rules of document 01 speak of the empty row where there is none.
#[derive(Clone, Copy)]
pub struct Seen<R> {
    pub here: bool,
    pub row: R,
}

impl<R: Row + Copy> Seen<R> {
    /// No row.
    pub fn none() -> Seen<R>
        ensures { result ≡ seen R.empty absent }
    {
        Seen {
            here: false,
            row: R::empty(),
        }
    }

    /// What is read at a spot: the row where it is there, else none.
    #[tactic(auto, unfolding(crate::specs::Spots::at_spot))]
    pub fn at(here: bool, row: R) -> Seen<R>
        ensures { result ≡ seen R.empty (at_spot here row) }
    {
        if here {
            Seen { here, row }
        } else {
            Seen::none()
        }
    }

    /// The row made `row`, where there is one.
    #[tactic(auto, unfolding(crate::specs::Seen::put_seen, refusal::specs::Choice::pick))]
    pub fn put(self, row: R) -> Seen<R>
        ensures { result ≡ put_seen self row }
    {
        if self.here {
            Seen { here: true, row }
        } else {
            self
        }
    }
}

/// What is written at a spot: the row where it is there, else what was read.
pub fn over<R: Copy>(row: R, here: bool, old: R) -> R
    ensures { result ≡ cond here row old }
{
    if here { row } else { old }
}
