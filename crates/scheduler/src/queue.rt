//! The queue of those who can go on, by their places in the table of processes: the first moves next.
ghost use Rattle.std.specs.Prelude.{◌≡◌, [], slice_index_or, slice_set};
ghost use Rattle.store.specs.Held.{model, bounds};
ghost use Rattle.scheduler.specs.Queue.{first, rotated};

use store::Store;

/// The list of the store that is the queue.
pub const QUEUE: usize = 0;

/// The first in the queue.
pub fn first_ready(st: &Store) -> Option<u32>
    ensures { result ≡ first (slice_index_or (model st.now) 0 []) }
{
    st.words(QUEUE).first().copied()
}

/// The first goes to the back.
// The store lends no list to be written, so its words are set one by one.
pub fn rotate(st: &mut Store)
    ensures same { bounds st.new ≡ bounds st.old }
    ensures after { model st.new ≡ slice_set (model st.old) 0 (rotated (slice_index_or (model st.old) 0 [])) }
{
    let Some(front) = first_ready(st) else {
        return;
    };
    let last = st.len(QUEUE) - 1;
    for i in 0..last {
        let next = st.get(QUEUE, i + 1);
        st.set(QUEUE, i, next);
    }
    st.set(QUEUE, last, front);
}
