//! A small machine over a store: what code above the store looks like, and how its proofs go.
#![tactic(auto)]

ghost use Rattle.std.specs.Prelude.{◌≡◌, ℕ, ◌+◌, ◌-◌, ◌*◌, ◌/◌, ◌<◌, ◌≤◌, true, false, cond, List, [], ◌∷◌, ◌++◌, length, IfSome, IfOk, Err, OnOk, slice_index, slice_index_or, slice_set};
ghost use Rattle.segments.specs.Layout.{need};
ghost use Rattle.store.specs.declared.Refusal.TheVariants.{NoRoom};
ghost use Rattle.store.specs.Sums.{extent};
ghost use Rattle.store.specs.Dense.{Dense, in_use_count};
ghost use Rattle.store.specs.Held.{model, bounds};
ghost use Rattle.store_client.specs.Turn.{top, rest, acted};
ghost use Rattle.store_client.specs.Op.{code_of, Decodes};
ghost use Rattle.store_client.specs.declared.UnknownOp.{UnknownOp};
ghost use Rattle.store_client.specs.declared.Halt.TheVariants.{Unknown, Refused};

use std::error::Error;
use std::fmt;
use store::{Refusal, Store, store_in};

/// How many lists a process has.
const BLOCK: usize = 3;

pub fn last(st: &Store, i: usize) -> u32
    ensures { result ≡ top (slice_index_or (model st.now) i []) }
{
    st.get(i, st.len(i).saturating_sub(1))
}

/// Two words more behind list i.
pub fn push_pair(st: &mut Store, i: usize, a: u32, b: u32) -> Result<(), Refusal>
    ensures same { bounds st.new ≡ bounds st.old }
    ensures after { OnOk result (model st.new ≡ slice_set (model st.old) i (slice_index_or (model st.old) i [] ++ (a ∷ b ∷ []))) }
{
    st.extend(i, &[a, b])
}

/// Several reads and writes at different lists.
pub fn mix(st: &mut Store) -> Result<u32, Refusal>
    ensures same { bounds st.new ≡ bounds st.old }
    ensures after { OnOk result (model st.new ≡ slice_set (slice_set (slice_set (model st.old) 1 (slice_index_or (model st.old) 1 [] ++ (slice_index (slice_index_or (model st.old) 0 []) 0 ∷ []))) 2 (slice_index_or (model st.old) 2 [] ++ (slice_index (slice_index_or (model st.old) 0 []) 1 ∷ []))) 3 []) }
{
    let a = st.get(0, 0);
    let b = st.get(0, 1);
    st.push(1, a)?;
    st.push(2, b)?;
    st.clear(3);
    Ok(st.get(4, 0))
}

/// What the machine does in a step.
#[derive(Clone, Copy, PartialEq, Eq, Debug)]
pub enum Op {
    /// The last word of the stack stands there once more.
    Double,
    /// The last word of the stack goes.
    Pop,
    /// The last word of the stack goes to what is written.
    Write,
}

/// A number that is no step of the machine.
#[derive(Clone, Copy, PartialEq, Eq, Debug)]
pub struct UnknownOp(pub u32);

impl TryFrom<u32> for Op {
    type Error = UnknownOp;

    ghost try_from_gives = { Decodes };

    fn try_from(code: u32) -> Result<Self, UnknownOp> {
        match code {
            0 => Ok(Op::Double),
            1 => Ok(Op::Pop),
            2 => Ok(Op::Write),
            _ => Err(UnknownOp(code)),
        }
    }
}

impl fmt::Display for UnknownOp {
    fn fmt<W: fmt::Write>(&self, f: &mut fmt::Formatter<W>) -> fmt::Result {
        write!(f, "no step has the number {}", self.0)
    }
}

impl Error for UnknownOp {}

/// Why the machine stops.
#[derive(Clone, Copy, PartialEq, Eq, Debug)]
pub enum Halt {
    Unknown(UnknownOp),
    Refused(Refusal),
}

impl fmt::Display for Halt {
    fn fmt<W: fmt::Write>(&self, f: &mut fmt::Formatter<W>) -> fmt::Result {
        match self {
            Halt::Unknown(op) => write!(f, "{op}"),
            Halt::Refused(refusal) => write!(f, "{refusal}"),
        }
    }
}

impl Error for Halt {}

impl From<UnknownOp> for Halt {
    ghost from_gives = { λ e r. r ≡ Unknown e };

    fn from(op: UnknownOp) -> Self {
        Halt::Unknown(op)
    }
}

impl From<Refusal> for Halt {
    ghost from_gives = { λ e r. r ≡ Refused e };

    fn from(why: Refusal) -> Self {
        Halt::Refused(why)
    }
}

/// One step.
pub fn perform(st: &mut Store, op: Op) -> Result<(), Refusal>
    ensures same { bounds st.new ≡ bounds st.old }
    ensures after { OnOk result (model st.new ≡ acted (code_of op) (model st.old)) }
{
    match op {
        Op::Double => st.push(0, last(st, 0)),
        Op::Pop => {
            st.pop(0);
            Ok(())
        }
        Op::Write => {
            let v = last(st, 0);
            st.pop(0);
            st.push(3, v)
        }
    }
}

/// The step with the number `op`; where there is no such step, nothing changes.
pub fn act(st: &mut Store, op: u32) -> Result<(), Halt>
    ensures same { bounds st.new ≡ bounds st.old }
    ensures after { OnOk result (model st.new ≡ acted op (model st.old)) }
    ensures unknown { (e : UnknownOp) → result ≡ Err (Unknown e) → model st.new ≡ acted op (model st.old) }
{
    perform(st, Op::try_from(op)?)?;
    Ok(())
}

/// The step whose number stands where the machine is.
pub fn turn(st: &mut Store) -> Result<(), Halt>
    ensures same { bounds st.new ≡ bounds st.old }
    ensures after { OnOk result (model st.new ≡ acted (slice_index (slice_index_or (model st.old) 1 []) (slice_index (slice_index_or (model st.old) 2 []) 0)) (model st.old)) }
    ensures unknown { (e : UnknownOp) → result ≡ Err (Unknown e) → model st.new ≡ acted (slice_index (slice_index_or (model st.old) 1 []) (slice_index (slice_index_or (model st.old) 2 []) 0)) (model st.old) }
{
    let pc = st.get(2, 0) as usize;
    act(st, st.get(1, pc))
}

/// One word more in each of five lists; what that makes of the second.
pub fn five(st: &mut Store) -> Result<(), Refusal>
    requires in_bounds { 9 < length (model st.old) }
    ensures same { bounds st.new ≡ bounds st.old }
    ensures after { OnOk result (slice_index_or (model st.new) 1 [] ≡ slice_index_or (model st.old) 1 [] ++ (7 ∷ [])) }
{
    st.push(0, 7)?;
    st.push(1, 7)?;
    st.push(2, 7)?;
    st.push(3, 7)?;
    st.push(4, 7)
}

/// List 0 is written anew by way of the scratch list 1, v in front: then the two change places.
pub fn rewrite(st: &mut Store, v: u32) -> Result<(), Refusal>
    requires in_bounds { 9 < length (model st.old) }
    ensures same { bounds st.new ≡ bounds st.old }
    ensures after { OnOk result (slice_index_or (model st.new) 0 [] ≡ (v ∷ []) ++ slice_index_or (model st.old) 0 []) }
{
    st.clear(1);
    st.push(1, v)?;
    st.append(1, 0)?;
    if !st.swap(0, 1) {
        return Err(Refusal::NotInUse);
    }
    Ok(())
}

/// A number is taken for a while.
pub fn borrowed(st: &mut Store) -> Result<(), Refusal> {
    let i = st.fresh().ok_or(Refusal::NoRoom)?;
    let done = st.push(i, 1);
    st.free(i);
    done
}

/// One word more; where there is no room for it, so few words were lent, in a dense store by the words held and the lists in use.
pub fn push_or_few(st: &mut Store, i: usize, v: u32) -> Result<(), Refusal>
    ensures few { result ≡ Err NoRoom → (all : ℕ) → (bounds st.old).0 ≡ all / 2 → all < 3 * need (model st.old) + 19 * extent (bounds st.old).1 + 4 * (length (slice_index_or (model st.old) i []) + 1) + 20 }
    ensures dense { Dense (bounds st.old).1 → Dense (bounds st.new).1 }
    ensures few_dense { Dense (bounds st.old).1 → result ≡ Err NoRoom → (all : ℕ) → (bounds st.old).0 ≡ all / 2 → all < 3 * need (model st.old) + 19 * in_use_count (bounds st.old).1 + 4 * (length (slice_index_or (model st.old) i []) + 1) + 20 }
{
    st.push(i, v)
}

/// A block of three lists for a new process, with its number in the first; None where there is no room for it.
pub fn start(st: &mut Store, v: u32) -> Option<usize>
    requires dense { Dense (bounds st.old).1 }
    ensures dense { Dense (bounds st.new).1 }
    ensures begun { IfSome result (λ base. model st.new ≡ slice_set (model st.old) base (slice_index_or (model st.old) base [] ++ (v ∷ []))) }
{
    let base = st.fresh_block(BLOCK)?;
    if st.push(base, v).is_err() {
        st.remove_block(base, BLOCK);
        return None;
    }
    Some(base)
}

/// The process with the lists from `base` on ends. The answer is where the lists of another process stood, which stand there now.
pub fn stop(st: &mut Store, base: usize) -> Option<usize>
    requires dense { Dense (bounds st.old).1 }
    ensures dense { Dense (bounds st.new).1 }
    ensures after { IfSome result (λ from. (base + 3 ≤ from → (q : ℕ) → q < 3 → slice_index_or (model st.new) (base + q) [] ≡ slice_index_or (model st.old) (from + q) [])) }
{
    st.remove_block(base, BLOCK)
}

/// All words of a slice, one after another, into list 0 of a new store; the answer is how many words were moved on the way.
pub fn counted(words: &mut [u32], xs: &[u32]) -> usize
    ensures { result ≤ 128 * length xs.now + 64 }
{
    let Some(mut st) = store_in(words) else {
        return 0;
    };
    let _ = st.fresh();
    for x in xs {
        let _ = st.push(0, *x);
    }
    st.moved()
}
