// The morning report: reads a table from standard input, and writes its report to standard output.
#![tactic(auto)]

ghost use Rattle.std.specs.Io.{ReadsAtMost};

use std::io;
use std::io::{Read, Write};
use table::MOST_BYTES;

// One byte more than the largest table has: a longer input is a bad length.
const MOST_INPUT: usize = MOST_BYTES + 1;

// A report is shorter.
const MOST_TEXT: usize = 0x1_0000;

// Reads until an area is full or the input ends, and answers how many bytes were read.
fn read_full(from: &mut impl Read, area: &mut [u8]) -> io::Result<usize>
    ensures { ReadsAtMost result area.new }
{
    let mut done = 0;
    // A `while`: a read says how far the next one goes on.
    while done < area.len() {
        let n = from.read(&mut area[done..])?;
        if n == 0 {
            break;
        }
        done += n;
    }
    Ok(done)
}

// Writes the report of a table. The word has its length in bits 8 to 23.
fn print_report(to: &mut impl Write, table: &[u8]) -> io::Result<()> {
    let mut text = [0u8; MOST_TEXT];
    let word = shinglebar::shinglebar_report(table, &mut text);
    let n = (word / 0x100 % 0x1_0000) as usize;
    to.write_all(&text[..n])
}

fn main(rt: HostRuntime) -> io::Result<()> {
    let mut input = [0u8; MOST_INPUT];
    let n = read_full(&mut rt.stdin(), &mut input)?;
    print_report(&mut rt.stdout(), &input[..n])
}
