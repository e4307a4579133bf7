// The netting layers that numbers describe, the lowest one first.
ghost use Rattle.std.specs.Prelude.{◌≡◌, IfOk};
ghost use Rattle.clib.specs.Layers.{forecast_of};
ghost use Rattle.clib.specs.Outcomes.{Told};
ghost use Rattle.clib.specs.Layers.{receipt_of, receipts_of, supplied, layer_due, netted_due};

use crate::error::{PlanError, Refusal};
use feeds::{Feed, Netting, Receipt};
use std::alloc::{AllocError, Global};

// The stock and the receipts of one layer.
#[derive(Drop)]
pub struct Layer {
    stock: u64,
    receipts: Vec<Receipt>,
}

// The receipt that two numbers are: its period and its amount. No `From`, as for a cost line.
fn receipt(numbers: [u32; 2]) -> Receipt
    ensures { result ≡ receipt_of numbers }
{
    let [period, amount] = numbers;
    Receipt {
        period,
        amount: u64::from(amount),
    }
}

// The receipts that numbers are, two by two.
fn receipts(heap: Global, numbers: &[u32]) -> Result<Vec<Receipt>, AllocError>
    ensures { IfOk result (λ v. v.items ≡ receipts_of numbers.now) }
{
    let (receipts, _) = numbers.as_chunks();
    receipts.iter().copied().map(receipt).collect(heap)
}

impl Layer {
    // The layer at the front, and the numbers behind it: its stock, how many receipts it has, and the receipts.
    pub fn split_first(heap: Global, numbers: &[u32]) -> Result<(Layer, &[u32]), PlanError>
        ensures { Told (λ p. supplied p.0.stock p.0.receipts.items p.1.now) result (layer_due numbers.now) }
    {
        let [stock, count, rest @ ..] = numbers else {
            return Err(Refusal::Layout.into());
        };
        let length = 2 * *count as usize;
        let (front, rest) = rest.split_at_checked(length).ok_or(Refusal::Layout)?;
        let layer = Layer {
            stock: u64::from(*stock),
            receipts: receipts(heap, front)?,
        };
        Ok((layer, rest))
    }

    // The layer over the feed.
    pub fn over<F: Feed + Drop>(self, feed: F) -> Result<Netting<F>, PlanError>
        ensures { Told (forecast_of ⟦<Netting<F> as Feed>⟧.demands ⟦<Netting<F> as Feed>⟧.ending) result (netted_due self.stock self.receipts.items (forecast_of F.demands F.ending feed)) }
    {
        Ok(Netting::new(feed, self.stock, self.receipts)?)
    }
}
