// Bytes put into a lent buffer at a place, where there is room for them.
#![tactic(auto)]

ghost use Rattle.store.specs.Store.{Put};

// Copies `src` into `buf` from `at` on, and tells whether it had room; where it had none, `buf` stays as it was. `Put` speaks of that `bool`.
#[tactic(auto, using(crate::proofs::Laws::put_full, crate::proofs::Laws::put_done))]
pub fn put(buf: &mut [u8], at: usize, src: &[u8]) -> bool
    ensures { Put buf.old at src.now result buf.new }
{
    if buf.len() < at {
        return false;
    }
    if buf.len() - at < src.len() {
        return false;
    }
    buf[at..at + src.len()].copy_from_slice(src);
    true
}
