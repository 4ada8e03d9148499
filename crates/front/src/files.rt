//! Reading into buffers.
ghost use Rattle.std.specs.Prelude.{◌≤◌, length, IfOk};

use std::io;
use std::io::Read;

/// Reads until the buffer is full or there is no more: the bytes that were read.
pub fn fill<'a, R: Read>(from: &mut R, buffer: &'a mut [u8]) -> io::Result<&'a [u8]>
    ensures { IfOk result (λ bytes. length bytes.now ≤ length buffer.old) }
{
    // No count of reads: how much one gives is known only behind it.
    let mut n = 0;
    while n < buffer.len() {
        let got = from.read(&mut buffer[n..])?;
        if got == 0 {
            break;
        }
        n += got;
    }
    Ok(&buffer[..n])
}
