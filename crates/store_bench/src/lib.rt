//! What the bench in bench/store calls: rounds of pushes into the lists of one store.
#![tactic(auto)]

ghost use Rattle.std.specs.Prelude.{◌≡◌, ◌<◌, length, None};

use store::{Store, store_in};

fn open_lists(st: &mut Store, lists: usize) {
    // A count, and no index.
    for _k in 0..lists {
        let _ = st.fresh();
    }
}

/// Pushes `count` words, one list after another, and counts those that found room.
fn grow(st: &mut Store, lists: usize, count: u32) -> u32 {
    let mut done: u32 = 0;
    // Counted as bench/store/bench.rs does for `Vec`, so that both sides run the same loop; `touch` too.
    let mut at = 0;
    for k in 0..count {
        if st.push(at, k).is_ok() {
            done = done.wrapping_add(1);
        }
        at = if at < lists { at + 1 } else { 0 };
    }
    done
}

fn shrink(st: &mut Store, lists: usize, size: usize) {
    // By number: lists have numbers alone.
    for i in 0..lists {
        st.truncate(i, size);
    }
}

/// What a machine does for a byte: asks how long a list is, reads its last word, puts a word behind it and another in its place, and cuts it again.
fn touch(st: &mut Store, lists: usize, count: u32) -> u32 {
    let mut seen: u32 = 0;
    let mut at = 0;
    for k in 0..count {
        let len = st.len(at);
        seen = seen.wrapping_add(st.get(at, len.saturating_sub(1)));
        if st.push(at, k).is_ok() {
            st.set(at, len, seen);
            st.truncate(at, len);
        }
        at = if at < lists { at + 1 } else { 0 };
    }
    seen
}

/// A store with lists 0 up to `last`, and so many words in them; none where too few words are lent.
fn filled(words: &mut [u32], last: usize, fill: u32) -> Option<Store<'_>>
    ensures { length words.old < 64 → result ≡ None }
{
    let mut st = store_in(words)?;
    open_lists(&mut st, last.saturating_add(1));
    let _ = grow(&mut st, last, fill);
    Some(st)
}

/// Pushes `pushes` words and cuts the lists to `size` words each, `rounds` times; how many pushes found room.
// In each caller anew, so that the one that does not ask for the count keeps none.
#[inline(always)]
fn push_rounds(st: &mut Store, last: usize, size: usize, pushes: u32, rounds: u32) -> u64 {
    let mut pushed: u64 = 0;
    // A count, and no index.
    for _k in 0..rounds {
        pushed = pushed.wrapping_add(u64::from(grow(st, last, pushes)));
        shrink(st, last.saturating_add(1), size);
    }
    pushed
}

/// Makes lists 0 up to `last`, fills them, and touches them one after another; 0 in words too few for a store.
pub fn store_bench_touch(words: &mut [u32], last: usize, fill: u32, count: u32) -> u32
    ensures { length words.old < 64 → result ≡ 0 }
{
    filled(words, last, fill).map_or(0, |mut st| touch(&mut st, last, count))
}

/// Makes lists 0 up to `last`, fills them to `size` words each, and then pushes `pushes` words and cuts the lists again, `rounds` times;
/// the answer is how many pushes of the rounds found room.
pub fn store_bench_rounds(
    words: &mut [u32],
    last: usize,
    fill: u32,
    size: usize,
    pushes: u32,
    rounds: u32,
) -> u64
    ensures { length words.old < 64 → result ≡ 0 }
{
    filled(words, last, fill).map_or(0, |mut st| push_rounds(&mut st, last, size, pushes, rounds))
}

/// How many words the same moves.
pub fn store_bench_moved(
    words: &mut [u32],
    last: usize,
    fill: u32,
    size: usize,
    pushes: u32,
    rounds: u32,
) -> usize
    ensures { length words.old < 64 → result ≡ 0 }
{
    filled(words, last, fill).map_or(0, |mut st| {
        let _ = push_rounds(&mut st, last, size, pushes, rounds);
        st.moved()
    })
}
