ghost use Rattle.feeds.specs.NettingMade.{Made};

use crate::netting::Netting;
use crate::netting::fault::{NettingFault, check_supply};
use crate::receipt::Receipt;
use crate::supply::Supply;

// Why no layer was made, and what was given for it.
#[derive(Drop)]
pub struct NettingRefused<F> {
    pub fault: NettingFault,
    pub feed: F,
    pub receipts: Vec<Receipt>,
}

impl<F> Netting<F> {
    // The layer over a feed whose next demand is that of period 1.
    pub fn new(feed: F, stock: u64, receipts: Vec<Receipt>) -> Result<Netting<F>, NettingRefused<F>>
        ensures { Made feed stock receipts result }
    {
        match check_supply(stock, &receipts) {
            Ok(()) => Ok(Netting {
                feed,
                supply: Supply::new(stock, receipts),
            }),
            Err(fault) => Err(NettingRefused {
                fault,
                feed,
                receipts,
            }),
        }
    }
}
