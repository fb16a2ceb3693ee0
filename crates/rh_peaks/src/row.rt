//! The words of a row.
ghost use Rattle.std.specs.Prelude.{◌≡◌, ◌≢◌, ℕ, ◌+◌, ◌*◌, ◌/◌, ◌^◌, ◌<◌, ◌≤◌, length, slice_index, MatchOption};
ghost use Rattle.rh_peaks.specs.Peaks.{IsTree, peak, FirstPeak, LastPeak};

/// Puts a number in place `i`.
pub fn put(nodes: &mut [u64], i: usize, v: u64)
    requires tree { IsTree nodes.old }
    requires within { i < length nodes.old / 2 }
    ensures tree { IsTree nodes.new }
    ensures here { peak nodes.new i ≡ v }
    ensures others { (j : ℕ) → j < length nodes.old / 2 → j ≢ i → peak nodes.new j ≡ peak nodes.old j }
    ensures long { length nodes.new ≡ length nodes.old }
{
    let mut k = nodes.len() / 2 + i;
    nodes[k] = v;
    'walk: while 1 < k {
        k /= 2;
        let most = nodes[2 * k].max(nodes[2 * k + 1]);
        if nodes[k] == most {
            return;
        }
        nodes[k] = most;
    }
}

/// The first place whose number is `t` or more.
pub fn first(nodes: &[u64], t: u64) -> Option<usize>
    requires { IsTree nodes.now }
    ensures { MatchOption result ((j : ℕ) → j < length nodes.now / 2 → peak nodes.now j < t) (FirstPeak nodes.now t) }
{
    let w = nodes.len() / 2;
    if w == 0 || nodes[1] < t {
        return None;
    }
    let mut k = 1;
    'walk: while k < w {
        k *= 2;
        if nodes[k] < t {
            k += 1;
        }
    }
    Some(k - w)
}

/// The last place below `i` whose number isn't 0.
pub fn last(nodes: &[u64], i: usize) -> Option<usize>
    requires tree { IsTree nodes.now }
    requires within { i < length nodes.now / 2 }
    ensures { MatchOption result ((j : ℕ) → j < i → peak nodes.now j ≡ 0) (LastPeak nodes.now i) }
{
    let w = nodes.len() / 2;
    let mut k = w + i;
    'up: loop {
        if k <= 1 {
            return None;
        }
        if k % 2 == 1 && nodes[k - 1] != 0 {
            break;
        }
        k /= 2;
    }
    k -= 1;
    'down: while k < w {
        k = 2 * k + 1;
        if nodes[k] == 0 {
            k -= 1;
        }
    }
    Some(k - w)
}
