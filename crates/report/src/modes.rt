// The modes of the program. What they do is generic (`reporting`); these are the public calls of this program, with contracts that
// name its plan.
ghost use Rattle.std.specs.Prelude.{◌≡◌, IfOk};
ghost use Rattle.reporting.specs.LotFiles.{FiledAs};
ghost use Rattle.report.specs.Modes.{printed, printed_orders, file_due};

use crate::planning::AtOnce;
use feeds::orders::OrderWords;
use feeds::text::TextLines;
use reporting::{LotFileError, file_input, print_input};
use std::alloc::{AllocError, Global};

// What is printed for an input of costs and a forecast text: the cheapest plan, or why there is none.
pub fn report(heap: Global, input: &[u8]) -> Result<Vec<u8>, AllocError>
    ensures { IfOk result (λ v. v.items ≡ printed input.now) }
{
    print_input::<TextLines, AtOnce>(heap, input)
}

// What is printed for an input of costs and order words.
pub fn report_orders(heap: Global, input: &[u8]) -> Result<Vec<u8>, AllocError>
    ensures { IfOk result (λ v. v.items ≡ printed_orders input.now) }
{
    print_input::<OrderWords, AtOnce>(heap, input)
}

// The lot file of the plan of an input of costs and a forecast text, or why there is none.
pub fn lot_file(heap: Global, input: &[u8]) -> Result<Vec<u8>, LotFileError>
    ensures { FiledAs (file_due input.now) result }
{
    file_input::<TextLines, AtOnce>(heap, input)
}
