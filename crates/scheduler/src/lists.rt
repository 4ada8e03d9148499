//! The lists that a run begins with.
ghost use Rattle.std.specs.Prelude.{◌≡◌, ◌≤◌};
ghost use Rattle.store.specs.Held.{model, bounds};
ghost use Rattle.scheduler.specs.Lists.{opened, Opened};

use store::{Refusal, Store};

/// Opens the lists 0 up to n of a store with none in use; or there is no room for them.
pub fn open_lists(st: &mut Store, n: usize) -> Result<(), Refusal>
    requires none { (bounds st.old).1 ≡ opened 0 (bounds st.old).0 }
    requires numbers { n ≤ (bounds st.old).0 }
    ensures after { model st.new ≡ model st.old }
    ensures says { Opened n (bounds st.old).0 (model st.old) (bounds st.new) result }
{
    // One by one: the promise says what is open where there is no room for all, and `fresh_block` opens all or none.
    for _j in 0..n {
        if st.fresh().is_none() {
            return Err(Refusal::NoRoom);
        }
    }
    Ok(())
}
