// Which record declares a label: chains of declarations by the hash of their labels, and a walk along one.
ghost use Rattle.std.specs.Prelude.{◌≡◌, true, ◌≤◌, ◌<◌, length};
ghost use Rattle.kinds.specs.Kinds.{new_point, new_arc};
ghost use Rattle.names.specs.Labels.{drawn, labelled};
ghost use Rattle.names.specs.Chains.{hash_of, hashed, first_from, NextsFrom, Chained};

use crate::laid::Laid;
use crate::pieces::front;
use kinds::NEW_ARC;
use record::MOST;

// How many chains there are.
pub(crate) const HEADS: usize = 1_024;

// For each hash the first declaration that has it, and for each declaration the next one; the number of records stands for none.
#[derive(Drop)]
pub(crate) struct Chains {
    pub heads: [u16; HEADS],
    pub nexts: [u16; MOST],
}

impl Chains {
    // Makes the chains of the declarations: from the last record to the first, each goes to the front of its chain.
    pub(crate) fn link(&mut self, page: &Laid)
        ensures { Chained (drawn page.now.text.now page.now.records.now) self.new.heads self.new.nexts }
    {
        let n = page.count();
        let none = n as u16;
        self.heads.fill(none);
        self.nexts.fill(none);
        for i in (0..n).rev() {
            let declares = page.kind(i) <= NEW_ARC;
            if declares {
                let f = front(page.label(i, 0));
                let hash = f.hash;
                self.nexts[i] = self.heads[hash];
                self.heads[hash] = i as u16;
            }
        }
    }

    // The first record from one of a chain on that declares a label, or the number of records. No `for`: it goes by the table of nexts.
    pub(crate) fn walk(&self, page: &Laid, label: &[u8], start: usize) -> usize
        requires { NextsFrom (drawn page.now.text.now page.now.records.now) 0 self.now.nexts × (start ≤ length (drawn page.now.text.now page.now.records.now)) × (start < length (drawn page.now.text.now page.now.records.now) → hashed (drawn page.now.text.now page.now.records.now) (hash_of label.now) start ≡ true) }
        ensures { result ≡ first_from (labelled (drawn page.now.text.now page.now.records.now) new_point new_arc label.now) (length (drawn page.now.text.now page.now.records.now)) start }
    {
        let n = page.count();
        let mut i = start;
        while i < n {
            if page.label(i, 0) == label {
                return i;
            }
            i = self.nexts[i] as usize;
        }
        n
    }
}
