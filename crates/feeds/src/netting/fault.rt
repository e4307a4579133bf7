// Why a netting layer is refused.
ghost use Rattle.std.specs.Prelude.{◌≡◌};
ghost use Rattle.std.specs.Result.{result_err};
ghost use Rattle.feeds.specs.Receipts.{supply_fault, netting_number};
ghost use Rattle.feeds.specs.declared.netting.fault.NettingFault.TheVariants.{Receipts};

use crate::receipt::{Receipt, ReceiptFault};
use lots::{DatedFault, FirstDate, Refusal, check_dated};

#[derive(Clone, Copy, PartialEq, Eq, Debug)]
pub enum NettingFault {
    // The stock is above 1,000,000,000.
    Stock,
    // There are too many receipts, their dates are wrong, or one is too large.
    Receipts(DatedFault<ReceiptFault>),
}

impl Refusal for NettingFault {
    ghost numbered = { netting_number };

    fn number(&self) -> u32 {
        match self {
            NettingFault::Stock => 8,
            NettingFault::Receipts(fault) => fault.number(),
        }
    }
}

impl From<DatedFault<ReceiptFault>> for NettingFault {
    ghost from_gives = { λ f r. r ≡ Receipts f };

    fn from(fault: DatedFault<ReceiptFault>) -> NettingFault {
        NettingFault::Receipts(fault)
    }
}

// Whether a layer can be made of this stock and these receipts.
pub fn check_supply(stock: u64, receipts: &[Receipt]) -> Result<(), NettingFault>
    ensures { result_err result ≡ supply_fault stock receipts.now }
{
    if stock > 1_000_000_000 {
        return Err(NettingFault::Stock);
    }
    Ok(check_dated(receipts, 0, 32, FirstDate::AtLeast(1))?)
}
