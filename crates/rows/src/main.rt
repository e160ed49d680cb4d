// Prints the slots and the rows of the drawing on standard input, lowered from id 0, after a whole reading. Of a longer input than
// a page may be, no more is read than shows that.
#![tactic(auto)]

use answers::Way;
use std::io;

fn main(rt: HostRuntime) -> io::Result<()> {
    answers::streams::respond(&mut rt.stdin(), &mut rt.stdout(), Way::Rows)
}
