//! Long runs in which numbers also come in blocks, and refusals at the exact word.
ghost use Rattle.std.specs.Prelude.{◌≡◌};
ghost use Rattle.store.specs.Held.{bounds};
ghost use Rattle.store.specs.Dense.{Dense};

use super::mirror::Mirror;
use super::run;
use std::alloc::Global;
use std::process::Abort;
use std::test::Fail;
use store::{Store, store_in};

/// A long run in so many words; what the mirror has seen then.
fn long_run(heap: Global, size: usize) -> Result<Mirror, Fail> {
    let mut words = vec![in heap; 0u32; size]?;
    let Some(mut st) = store_in(words.as_mut_slice()) else {
        return Err(Fail::new("no store"));
    };
    let mut m = Mirror::new(heap, size, 7)?;
    m.in_blocks = true;
    run(&mut m, &mut st, 2000)?;
    Ok(m)
}

#[test]
fn thousand_moves(rt: HostRuntime) -> Result<(), Fail> {
    let m = long_run(rt.alloc(), 333)?;
    assert_eq!(rt; m.wrong, 0);
    assert!(rt; m.moves >= 1000);
    assert!(rt; m.refusals >= 1000);
    Ok(())
}

#[test]
fn small_stores(rt: HostRuntime) -> Result<(), Fail> {
    let a = long_run(rt.alloc(), 64)?;
    assert_eq!(rt; a.wrong, 0);
    let b = long_run(rt.alloc(), 100)?;
    assert_eq!(rt; b.wrong, 0);
    Ok(())
}

#[test]
fn large_stores(rt: HostRuntime) -> Result<(), Fail> {
    let a = long_run(rt.alloc(), 1200)?;
    assert_eq!(rt; a.wrong, 0);
    assert!(rt; a.moves >= 1000);
    let b = long_run(rt.alloc(), 5000)?;
    assert_eq!(rt; b.wrong, 0);
    Ok(())
}

/// How many words one list takes, in so many words lent.
fn most_pushes(heap: Global, size: usize) -> Result<usize, Fail> {
    let mut words = vec![in heap; 0u32; size]?;
    let Some(mut st) = store_in(words.as_mut_slice()) else {
        return Ok(0);
    };
    let _ = st.fresh();
    let _ = (0..1000).take_while(|_| st.push(0, 7).is_ok()).count();
    Ok(st.len(0))
}

/// How many numbers there are, in so many words lent.
fn most_lists(heap: Global, size: usize) -> Result<usize, Fail> {
    let mut words = vec![in heap; 0u32; size]?;
    let Some(mut st) = store_in(words.as_mut_slice()) else {
        return Ok(0);
    };
    Ok((0..1000).take_while(|_| st.fresh().is_some()).count())
}

/// The sixth word asks for 6 + 3 + 8, beside 5 + 1 that are held, 8 for the list and an eighth of the half: 31 and the eighth, so a half of 35.
#[test]
fn push_refused_at_the_word(rt: HostRuntime) -> Result<(), Fail> {
    let heap = rt.alloc();
    assert_eq!(rt; most_pushes(heap, 63)?, 0);
    assert_eq!(rt; most_pushes(heap, 64)?, 5);
    assert_eq!(rt; most_pushes(heap, 69)?, 5);
    assert_eq!(rt; most_pushes(heap, 70)?, 6);
    Ok(())
}

/// The fourth list asks for 8, beside 24 for those in use: 32 and the eighth, so a half of 36.
#[test]
fn fresh_refused_at_the_word(rt: HostRuntime) -> Result<(), Fail> {
    let heap = rt.alloc();
    assert_eq!(rt; most_lists(heap, 64)?, 3);
    assert_eq!(rt; most_lists(heap, 71)?, 3);
    assert_eq!(rt; most_lists(heap, 72)?, 4);
    Ok(())
}

/// Two blocks of two lists behind list 0; the last goes to the place of the first, and then goes out itself.
fn two_blocks(rt: &impl Abort, st: &mut Store) -> Result<(), Fail>
    requires { Dense (bounds st.old).1 }
{
    assert_eq!(rt; st.fresh_block(5), Some(0));
    st.push(3, 30)?;
    st.push(4, 40)?;
    assert_eq!(rt; st.remove_block(1, 2), Some(3));
    assert_eq!(rt; st.get(1, 0), 30);
    assert_eq!(rt; st.get(2, 0), 40);
    assert!(rt; !st.in_use(3));
    assert_eq!(rt; st.remove_block(2, 2), None);
    assert!(rt; st.in_use(2));
    assert_eq!(rt; st.remove_block(1, 2), None);
    assert!(rt; !st.in_use(1));
    assert!(rt; st.in_use(0));
    Ok(())
}

#[test]
fn blocks(rt: HostRuntime) -> Result<(), Fail> {
    let mut words = vec![in rt.alloc(); 0u32; 200]?;
    let Some(mut st) = store_in(words.as_mut_slice()) else {
        return Err(Fail::new("no store"));
    };
    two_blocks(&rt, &mut st)
}
