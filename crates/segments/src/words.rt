//! Numbers of 64 bits in two words, and stretches of words.
ghost use Rattle.std.specs.Prelude.{◌≡◌, ℕ, ◌+◌, ◌<◌, ◌≤◌, ◌⊎◌, List, [], ◌∷◌, length, take, drop};
ghost use Rattle.segments.specs.Words.{at64, put64, Written};

// A number of 64 bits takes two of the lent words; a type for the pair would only wrap these two lines.

/// The number in the words at k.
pub fn wide(t: &[u32], k: usize) -> usize
    requires { k + 1 < length t.now }
    ensures { result ≡ at64 t.now k }
{
    t[k] as usize + 4294967296 * (t[k + 1] as usize)
}

/// Puts a number into the words at k.
pub fn put_wide(t: &mut [u32], k: usize, v: usize)
    requires { k + 1 < length t.old }
    ensures { t.new ≡ put64 t.old k v }
{
    t[k] = (v % 4294967296) as u32;
    t[k + 1] = (v / 4294967296) as u32;
}

/// The len words at `at` go to `to` as well.
pub fn copy_words(w: &mut [u32], at: usize, to: usize, len: usize)
    requires to_in_bounds { to + len ≤ length w.old }
    requires at_in_bounds { at + len ≤ length w.old }
    ensures { Written w.old w.new to (take len (drop at w.old)) }
{
    w.copy_within(at..at + len, to);
}

/// The same for a segment that goes to another place. That is seldom, so it is kept out of the loops in which words are pushed.
#[cold]
pub fn move_words(w: &mut [u32], at: usize, to: usize, len: usize)
    requires to_in_bounds { to + len ≤ length w.old }
    requires at_in_bounds { at + len ≤ length w.old }
    ensures { Written w.old w.new to (take len (drop at w.old)) }
{
    copy_words(w, at, to, len);
}

/// The words of a slice go to `to`.
pub fn put_words(w: &mut [u32], to: usize, xs: &[u32])
    requires { to + length xs.now ≤ length w.old }
    ensures { Written w.old w.new to xs.now }
{
    w[to..to + xs.len()].copy_from_slice(xs);
}
