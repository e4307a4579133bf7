// A receipt: an amount that comes in a period, and that no lot has to make.
ghost use Rattle.feeds.specs.Receipts.{receipt_fault, receipt_number};

use lots::{DatedLine, Refusal};

#[derive(Clone, Copy, PartialEq, Eq, Debug)]
pub struct Receipt {
    pub period: u32,
    pub amount: u64,
}

// The one fault that a receipt itself can have: its amount is above 1,000,000,000.
#[derive(Clone, Copy, PartialEq, Eq, Debug)]
pub struct ReceiptFault;

impl DatedLine for Receipt {
    type Fault = ReceiptFault;

    ghost dated = { λ x. x.period };

    ghost earned = { receipt_fault };

    fn date(&self) -> u32 {
        self.period
    }

    fn fault(&self) -> Option<ReceiptFault> {
        (self.amount > 1_000_000_000).then_some(ReceiptFault)
    }
}

impl Refusal for ReceiptFault {
    ghost numbered = { receipt_number };

    fn number(&self) -> u32 {
        7
    }
}
