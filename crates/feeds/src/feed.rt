ghost use Rattle.std.specs.Prelude.{◌≡◌, ℕ, ◌≤◌, List, [], IfSome, IfOk};
ghost use Rattle.theory.specs.Endings.{Ending};
ghost use Rattle.feeds.specs.declared.fault.FeedFault.{FeedFault};
ghost use Rattle.feeds.specs.Feeding.{next_told, others, Small};

use crate::fault::FeedFault;

// No period asks for more.
pub const LARGEST_DEMAND: u32 = 1_000_000;

// What a feed means: the demands still to come, how they end, and the byte place it has come to.
pub trait Feed {
    ghost demands: { Self → List ℕ };

    ghost ending: { Self → Ending FeedFault };

    ghost reached: { Self → ℕ };

    // Tells the first demand and keeps those behind it; where none is left, tells how they end and changes nothing. That no demand
    // still to come is above the largest is told here and is no law, since in a law a number of 8 or 16 bits would be any number, and
    // a feed of such numbers could not show it.
    fn next(&mut self) -> Result<Option<u32>, FeedFault>
        ensures told { result ≡ next_told (demands self.old) (ending self.old) }
        ensures others { demands self.new ≡ others (demands self.old) }
        ensures ending { ending self.new ≡ ending self.old }
        ensures onward { reached self.old ≤ reached self.new }
        ensures small { Small (demands self.old) }
        ensures fits { IfOk result (λ o. IfSome o (λ d. d ≤ 1000000)) }
        ensures ended { demands self.old ≡ [] → self.new ≡ self.old };

    fn place(&self) -> usize
        ensures { result ≡ reached self.now };
}
