// Files of bytes, as the programs read them.
#![tactic(auto)]

ghost use Rattle.std.specs.Prelude.{◌<◌, ◌≤◌, length, take, IfOk};
ghost use Rattle.std.specs.Io.KnownBytes.{Consumes, IsAtEnd};

use std::fs::File;
use std::io;
use std::io::Read;

// Reads bytes into the buffer, as many as there are and find room, and returns how many. Where a reader's bytes are known they are the first of them, and
// fewer than find room only where it has no more.
pub fn fill_from<R: Read>(reader: &mut R, buffer: &mut [u8]) -> io::Result<usize>
    ensures bound { IfOk result (λ n. n ≤ length buffer.old) }
    ensures bytes { IfOk result (λ n. Consumes (R.remaining reader.old) (R.remaining reader.new) (take n buffer.new)) }
    ensures whole { IfOk result (λ n. n < length buffer.old → IsAtEnd (R.remaining reader.new)) }
{
    let mut count = 0;
    // Until nothing more comes or the buffer is full. A `for` would be no plainer: it would count rounds that nobody asks for.
    while count < buffer.len() {
        let more = reader.read(&mut buffer[count..])?;
        if more == 0 {
            break;
        }
        count += more;
    }
    Ok(count)
}

// The bytes of a file.
fn fill(rt: &HostRuntime, path: &str, buffer: &mut [u8]) -> io::Result<usize>
    ensures { IfOk result (λ n. n ≤ length buffer.old) }
{
    let mut file = File::open(rt, path)?;
    fill_from(&mut file, buffer)
}

// The same, where a file that cannot be opened or read is empty. It fills a caller's buffer, so that it wants no heap and cannot fail.
pub fn read_start(rt: &HostRuntime, path: &str, buffer: &mut [u8]) -> usize
    ensures { result ≤ length buffer.old }
{
    fill(rt, path, buffer).unwrap_or(0)
}
