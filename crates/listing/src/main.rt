// Prints the listing of the page on standard input, by the whole reading. Of a longer input than a page may be, no more is read
// than shows that.
#![tactic(auto)]

use answers::Way;
use std::io;

fn main(rt: HostRuntime) -> io::Result<()> {
    answers::streams::respond(&mut rt.stdin(), &mut rt.stdout(), Way::Whole)
}
