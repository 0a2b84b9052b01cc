// The numbers of a file, taken from the front.
ghost use Rattle.std.specs.Prelude.{◌≡◌, ◌↔◌, [], IsTrue};
ghost use Rattle.cases.specs.Numbers.{taken};

use crate::fault::CaseFault;
use std::marker::Model;
use std::vec::IntoIter;

// The numbers that are left. Clauses see the list of them.
#[derive(Drop)]
pub struct Numbers {
    left: IntoIter<u16>,
}

impl Model for Numbers {
    ghost use Rattle.std.specs.Prelude.{◌≡◌, ℕ, List, length};
    ghost use Rattle.std.specs.Vec.Iter.{into_iter_items, into_iter_len};

    ghost Value = { List ℕ };

    ghost view = { λ n. into_iter_items n.left };

    ghost invariant = { λ n. into_iter_len n.left ≡ length (into_iter_items n.left) };
}

impl Numbers {
    // All the numbers of a list.
    pub fn new(numbers: Vec<u16>) -> Numbers
        ensures { result ≡ numbers.items }
    {
        Numbers {
            left: numbers.into_iter(),
        }
    }

    // Whether none is left.
    pub fn is_done(&self) -> bool
        ensures { IsTrue result ↔ (self.now ≡ []) }
    {
        self.left.len() == 0
    }

    // The next number.
    pub fn take(&mut self) -> Result<u16, CaseFault>
        ensures { (result, self.new) ≡ taken self.old }
    {
        self.left.next().ok_or(CaseFault::Ended)
    }
}
