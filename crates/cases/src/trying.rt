// Trying every case of a file.
ghost use Rattle.std.specs.Prelude.{◌≡◌, ◌↔◌, ℕ, List, [], IsTrue, IsOk, OnOk};

use crate::fault::CaseFault;

// The cases of a file, tried one by one.
pub trait Cases {
    // Why a case cannot be tried.
    type Fault: From<CaseFault>;

    // The numbers of the file that are left.
    ghost left: { Self → List ℕ };

    // Whether none is left.
    fn is_done(&self) -> bool
        ensures { IsTrue result ↔ (left self.now ≡ []) };

    // Tries the case that comes first.
    fn try_case(&mut self) -> Result<(), Self::Fault>;

    // Tries each case that is left. It counts them, since nothing says that a case takes a number.
    fn try_all(&mut self) -> Result<(), Self::Fault>
        ensures all { OnOk result (left self.new ≡ []) }
        ensures of_none { left self.old ≡ [] → IsOk result }
    {
        for _ in 0..u64::MAX {
            if self.is_done() {
                return Ok(());
            }
            self.try_case()?;
        }
        Err(CaseFault::TooMany.into())
    }
}
