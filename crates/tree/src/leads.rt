// The leads of all lines, taken from the list.
ghost use Rattle.std.specs.Prelude.{◌≡◌, Bool, true, false, cond, List, ◌++◌, ℕ, ◌+◌, ◌-◌, ◌*◌, ◌≤◌, ◌<◌, leb, length, get_or, set, take, drop};
ghost use Rattle.tally.specs.Tally.{one, tally};
ghost use Rattle.tree.specs.Note.{leads_of};

// Words from this number on are flagged.
const FLAGGED: u32 = 1 << 31;

// A flagged word goes to the place m, without its flag. Returns where the next one goes.
fn keep(u: u32, m: usize, places: &mut [u32]) -> usize
    requires { (leb 2147483648 u ≡ true → m < length places.old) × (m ≤ length places.old) }
    ensures { (result ≡ m + one (leb 2147483648 u)) × (places.new ≡ cond (leb 2147483648 u) (set places.old m (u - 2147483648)) places.old) }
{
    if FLAGGED <= u {
        places[m] = u - FLAGGED;
        m + 1
    } else {
        m
    }
}

// The leads among the first n words, to the first places.
pub fn collect(words: &[u32], n: usize, places: &mut [u32])
    requires { (n ≤ length words.now) × (tally (leb 2147483648) (take n words.now) ≤ length places.old) }
    ensures { places.new ≡ leads_of (take n words.now) ++ drop (length (leads_of (take n words.now))) places.old }
{
    let mut m = 0;
    for u in &words[..n] {
        m = keep(*u, m, places);
    }
}
