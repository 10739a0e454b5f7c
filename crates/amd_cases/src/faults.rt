// What is wrong with a line of a case, and how a message says it.

ghost use Rattle.std.specs.Prelude.{◌≡◌};
ghost use Rattle.amd_cases.specs.declared.faults.CaseFault.TheVariants.{OutOfMemory};

use std::alloc::AllocFailed;
use std::fmt;

/// What is wrong with a line.
#[derive(Clone, Copy, PartialEq, Debug, Drop)]
pub enum CaseFault {
    /// The first word of the line is no keyword.
    Keyword,
    /// A word behind the keyword is no number or does not fit, or there are more or fewer than the keyword takes.
    Numbers,
    /// The item stands outside of a case.
    Outside,
    /// `CASE` stands inside a case.
    Inside,
    /// The case has the item already.
    Repeated,
    /// The case ends without `N`, `AP` or `AI`.
    Missing,
    /// The input ends inside a case.
    Unfinished,
    /// The line has more bytes than a line may have.
    Long,
    /// There are more lines than 64 bits count.
    Lines,
    /// Memory was refused.
    OutOfMemory,
}

impl CaseFault {
    /// The fault in words.
    fn text(self) -> &'static str {
        match self {
            CaseFault::Keyword => "no keyword",
            CaseFault::Numbers => "not the numbers that the keyword takes",
            CaseFault::Outside => "an item outside of a case",
            CaseFault::Inside => "CASE inside a case",
            CaseFault::Repeated => "a repeated item",
            CaseFault::Missing => "END without N, AP or AI",
            CaseFault::Unfinished => "the input ends inside a case",
            CaseFault::Long => "a line that is too long",
            CaseFault::Lines => "too many lines",
            CaseFault::OutOfMemory => "out of memory",
        }
    }
}

impl fmt::Display for CaseFault {
    fn fmt<W: fmt::Write>(&self, f: &mut fmt::Formatter<W>) -> fmt::Result {
        f.write_str(self.text())
    }
}

impl std::error::Error for CaseFault {}

impl<T: Drop> From<AllocFailed<T>> for CaseFault {
    ghost from_gives = { λ _ e. e ≡ OutOfMemory };

    fn from(_: AllocFailed<T>) -> CaseFault {
        CaseFault::OutOfMemory
    }
}
