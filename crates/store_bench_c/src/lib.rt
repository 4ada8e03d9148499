//! The calls of `store_bench` as C and Rust outside see them.
#![tactic(auto)]

ghost use Rattle.std.specs.Prelude.{◌≡◌, ◌<◌, length};

#[unsafe(no_mangle)]
pub extern "C" fn store_bench_touch(words: &mut [u32], last: usize, fill: u32, count: u32) -> u32
    ensures { length words.old < 64 → result ≡ 0 }
{
    store_bench::store_bench_touch(words, last, fill, count)
}

/// One number each: C takes no struct.
#[unsafe(no_mangle)]
pub extern "C" fn store_bench_rounds(
    words: &mut [u32],
    last: usize,
    fill: u32,
    size: usize,
    pushes: u32,
    rounds: u32,
) -> u64
    ensures { length words.old < 64 → result ≡ 0 }
{
    store_bench::store_bench_rounds(words, last, fill, size, pushes, rounds)
}

#[unsafe(no_mangle)]
pub extern "C" fn store_bench_moved(
    words: &mut [u32],
    last: usize,
    fill: u32,
    size: usize,
    pushes: u32,
    rounds: u32,
) -> usize
    ensures { length words.old < 64 → result ≡ 0 }
{
    store_bench::store_bench_moved(words, last, fill, size, pushes, rounds)
}
