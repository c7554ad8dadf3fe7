// Reads the next line of a list.
ghost use Rattle.std.specs.Prelude.{◌≤◌, ◌<◌, length, take, IfOk};
ghost use Rattle.std.specs.Io.KnownBytes.{Consumes, IsAtEnd};

use std::io;
use std::io::Read;

// Reads until the line is full or the list is at its end, and answers how many bytes came: they
// stand at the line's start. After an error the line holds what came before it.
pub fn read_full<R: Read>(list: &mut R, line: &mut [u8]) -> io::Result<usize>
    ensures bound { IfOk result (λ n. n ≤ length line.new) }
    ensures bytes { IfOk result (λ n. Consumes (R.remaining list.old) (R.remaining list.new) (take n line.new)) }
    ensures end { IfOk result (λ n. n < length line.new → IsAtEnd (R.remaining list.new)) }
{
    let mut done = 0;
    while done < line.len() {
        let n = list.read(&mut line[done..])?;
        if n == 0 {
            break;
        }
        done += n;
    }
    Ok(done)
}
