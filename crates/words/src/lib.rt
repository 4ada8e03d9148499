//! Words pushed onto lists of a store, how words of the shell and texts are encoded there (specs/Encoding.antt), and what stands
//! on the paper (specs/Paper.antt).
#![tactic(auto)]

ghost use Rattle.std.specs.Prelude.{[], slice_index_or};
ghost use Rattle.store.specs.Held.{model};
ghost use Rattle.words.specs.Pushed.{Pushed};

use store::{Refusal, Store};

/// Before each word of a list of words.
pub const MARK: u32 = 512;

/// What a byte from quotes has more.
pub const QUOTED: u32 = 256;

/// The words ws behind list i, or a refusal: the call of the store, as the contracts of the machine say it.
pub fn extend(st: &mut Store, i: usize, ws: &[u32]) -> Result<(), Refusal>
    ensures { Pushed st.old st.new i ws.now result }
{
    st.extend(i, ws)
}

/// List j behind list i, or a refusal.
pub fn append(st: &mut Store, i: usize, j: usize) -> Result<(), Refusal>
    ensures { Pushed st.old st.new i (slice_index_or (model st.old) j []) result }
{
    st.append(i, j)
}
