//! Long runs on a small store, each step compared with a `Vec<Vec<u32>>`.
#![tactic(auto)]

ghost use Rattle.std.specs.Prelude.{◌≡◌};

mod mirror;
#[cfg(test)]
mod tests;

use anyhow::anyhow;
use mirror::{LISTS, Mirror};
use std::alloc::AllocError;
use store::{Store, store_in};

const TEXT: [u32; 24] = [
    1, 1, 2, 3, 5, 8, 13, 21, 34, 55, 89, 144, 233, 377, 610, 987, 1597, 2584, 4181, 6765, 10946,
    17711, 28657, 4294967295,
];

/// A step that makes lists longer, for the most part.
#[derive(Clone, Copy)]
enum Rise {
    Fresh,
    FreshBlock,
    Extend,
    Append,
    Swap,
    Push,
}

/// A step that makes lists shorter, for the most part.
#[derive(Clone, Copy)]
enum Fall {
    Free,
    Remove,
    Truncate,
    Set,
    Pop,
}

/// How often each comes.
const RISES: [Rise; 8] = [
    Rise::Fresh,
    Rise::Extend,
    Rise::Append,
    Rise::Swap,
    Rise::Push,
    Rise::Push,
    Rise::Push,
    Rise::Push,
];

const FALLS: [Fall; 6] = [
    Fall::Free,
    Fall::Truncate,
    Fall::Set,
    Fall::Pop,
    Fall::Pop,
    Fall::Pop,
];

fn lengthen(m: &mut Mirror, st: &mut Store) -> Result<(), AllocError> {
    let i = m.pick(LISTS + 1);
    match m.choose(&RISES, Rise::FreshBlock) {
        Rise::Fresh => {
            m.fresh(st);
            Ok(())
        }
        Rise::FreshBlock => {
            let k = m.pick(4);
            m.fresh_block(st, k);
            Ok(())
        }
        Rise::Extend => {
            let n = m.pick(24);
            m.extend(st, i, &TEXT[0..n])
        }
        Rise::Append => {
            let j = m.pick(LISTS + 1);
            m.append(st, i, j)
        }
        Rise::Swap => {
            let j = m.pick(LISTS);
            m.swap(st, i, j);
            Ok(())
        }
        Rise::Push => {
            let v = m.pick(1000000) as u32;
            m.push(st, i, v)
        }
    }
}

fn shorten(m: &mut Mirror, st: &mut Store) {
    let i = m.pick(LISTS + 1);
    let len = m.len(i);
    match m.choose(&FALLS, Fall::Remove) {
        Fall::Free => m.free(st, i),
        Fall::Remove => m.remove(st, i),
        Fall::Truncate => m.truncate(st, i, len / 2),
        Fall::Set => {
            let j = m.pick(len);
            m.set(st, i, j, 77);
        }
        Fall::Pop => m.pop(st, i),
    }
}

/// Fills and empties by turns.
fn run(m: &mut Mirror, st: &mut Store, rounds: u32) -> Result<(), AllocError> {
    // Counts, and no index.
    for _k in 0..rounds {
        let up = m.pick(60);
        let down = m.pick(24);
        for _k in 0..up {
            lengthen(m, st)?;
        }
        for _k in 0..down {
            shorten(m, st);
        }
        m.compare(st);
    }
    Ok(())
}

fn main(rt: HostRuntime) -> anyhow::Result<()> {
    let heap = rt.alloc();
    for size in [64usize, 100, 333, 600, 1200, 5000] {
        let mut words = vec![in heap; 0u32; size]?;
        let Some(mut st) = store_in(words.as_mut_slice()) else {
            return Err(anyhow!("no store"));
        };
        let mut m = Mirror::new(heap, size, 7)?;
        run(&mut m, &mut st, 2000)?;
        let right = if m.wrong == 0 { "all right" } else { "WRONG" };
        println!(rt;
            "{size} words: {} operations, {} moves, {} refusals, {right}",
            m.ops, m.moves, m.refusals
        )?;
    }
    let mut few = vec![in heap; 0u32; 63]?;
    let made = store_in(few.as_mut_slice()).is_some();
    println!(rt; "63 words: {made}")?;
    Ok(())
}
