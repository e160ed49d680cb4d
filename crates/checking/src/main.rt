// Prints whether the drawing of the page on standard input passes the check, after a whole reading. Of a longer input than a page
// may be, no more is read than shows that.
#![tactic(auto)]

use answers::Way;
use std::io;

fn main(rt: HostRuntime) -> io::Result<()> {
    answers::streams::respond(&mut rt.stdin(), &mut rt.stdout(), Way::Check)
}
