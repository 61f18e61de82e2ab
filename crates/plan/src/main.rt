// The program: the text on standard input, its answer on standard output.
#![tactic(auto)]

use std::io;
use std::io::Read;
use text::plan_bytes;

// One byte more than a text may have is enough to know that it is too long.
const ROOM: usize = 16385;

fn main(rt: HostRuntime) -> io::Result<()> {
    // An array and a loop, not `read_to_end` into a Vec: a program that plans takes no memory that may be refused.
    let mut query = [0u8; ROOM];
    let mut length = 0usize;
    let mut input = rt.reader();
    // A read may give less than there is, and gives nothing at the end or where the room is used up.
    for _ in 0..ROOM {
        let more = input.read(&mut query[length..])?;
        if more == 0 {
            break;
        }
        length += more;
    }
    let mut answer = [0u8; 4096];
    let written = plan_bytes(&query[..length], &mut answer);
    rt.write_all(&answer[..written])
}
