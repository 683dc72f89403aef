//! Requests that are met in turn.
ghost use Rattle.std.specs.Prelude.{◌≡◌, ◌<◌, suc, length, nat_lt};
ghost use Rattle.std.specs.List.{prefix_len};
ghost use Rattle.std.specs.List.Sorted.{IsStrictlyIncreasing};
ghost use Rattle.mx_board.specs.RequestFile.{is_wanted};
ghost use Rattle.mx_report.specs.Cursor.{next_at, IsAt};

/// A cycle that never comes, since cycles are numbers of 32 bits.
pub const NEVER: u64 = 1 << 32;

/// A place in a list of rising cycles: how many of the requests came so far, and the cycle of the next.
#[derive(Drop)]
pub struct Cursor {
    pub place: usize,
    pub next: u64,
}

// The cycle of the request at a place.
fn next_at(list: &[u32], place: usize) -> u64
    ensures { result ≡ next_at list.now place }
{
    match list.get(place) {
        Some(next) => u64::from(*next),
        None => NEVER,
    }
}

// How many requests stand in front that come before a cycle.
fn requests_before(list: &[u32], cycle: u32) -> usize
    ensures { result ≡ prefix_len (λ next. nat_lt next cycle) list.now }
{
    list.iter().take_while(|next| **next < cycle).count()
}

impl Cursor {
    /// Before the first cycle.
    pub fn start(list: &[u32]) -> Cursor
        ensures { IsAt list.now result 0 }
    {
        Cursor {
            place: 0,
            next: next_at(list, 0),
        }
    }

    /// Before a cycle: it has met the requests that come before it.
    pub fn at(list: &[u32], cycle: u32) -> Cursor
        requires ascending { IsStrictlyIncreasing list.now }
        ensures { IsAt list.now result cycle }
    {
        let place = requests_before(list, cycle);
        Cursor {
            place,
            next: next_at(list, place),
        }
    }

    // Goes behind the next request. Few cycles have one: a call of its own keeps the loop over all of them short.
    #[inline(never)]
    fn advance(&mut self, list: &[u32])
        requires { self.old.place < length list.now }
        ensures place { self.new.place ≡ suc self.old.place }
        ensures next { self.new.next ≡ next_at list.now self.new.place }
    {
        self.place += 1;
        self.next = next_at(list, self.place);
    }

    /// Whether a request comes in a cycle, where the cursor met those before it; then it has met this cycle's too.
    #[inline]
    pub fn comes(&mut self, list: &[u32], cycle: u32) -> bool
        requires ascending { IsStrictlyIncreasing list.now }
        requires before { IsAt list.now self.old cycle }
        ensures result { result ≡ is_wanted list.now cycle }
        ensures after { IsAt list.now self.new (suc cycle) }
    {
        if u64::from(cycle) != self.next {
            return false;
        }
        self.advance(list);
        true
    }
}
