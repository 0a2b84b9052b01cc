// Counting cases, and how they came out.
ghost use Rattle.std.specs.Prelude.{◌≡◌};
ghost use Rattle.cases.specs.Tally.{counted};

use std::{fmt, io};

// How many cases of one sort were tried, and how many came out other than they should.
#[derive(Drop)]
pub struct Tally {
    pub name: &'static str,
    pub tried: usize,
    pub differ: usize,
}

impl Tally {
    // None tried.
    pub fn new(name: &'static str) -> Tally
        ensures name { result.name ≡ name.entry }
        ensures none { (result.tried ≡ 0) × (result.differ ≡ 0) }
    {
        Tally {
            name,
            tried: 0,
            differ: 0,
        }
    }

    // Counts a case, and prints which it was if it came out otherwise. It counts also where the printing fails.
    pub fn note(&mut self, rt: &impl Print, same: bool) -> io::Result<()>
        ensures { self.new ≡ counted same self.old }
    {
        self.tried = self.tried.saturating_add(1);
        if same {
            return Ok(());
        }
        self.differ = self.differ.saturating_add(1);
        println!(rt; "{}: case {} differs", self.name, self.tried)
    }
}

impl fmt::Display for Tally {
    ghost use Rattle.std.specs.Prelude.{Some};
    ghost use Rattle.cases.specs.Tally.{tally_text};

    ghost output = { λ t. Some (tally_text t) };

    fn fmt<W: fmt::Write>(&self, f: &mut fmt::Formatter<W>) -> fmt::Result {
        write!(
            f,
            "{}: {} tried, {} differ",
            self.name, self.tried, self.differ
        )
    }
}
