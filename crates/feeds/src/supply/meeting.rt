ghost use Rattle.std.specs.Prelude.{◌≡◌, ℕ, ◌+◌, ◌*◌, ◌≤◌, List, ◌∷◌, None};
ghost use Rattle.std.specs.VecDeque.{deque_len};
ghost use Rattle.feeds.specs.Receipts.{supplies, netted, supply_fault};
ghost use Rattle.feeds.specs.Netting.{received_now, net_of, net_with, net_after};

use crate::receipt::Receipt;
use crate::supply::Supply;
use lots::DatedLine;

impl Supply {
    // The supply before period 1.
    pub(crate) fn new(stock: u64, receipts: Vec<Receipt>) -> Supply
        requires { supply_fault stock receipts.items ≡ None }
        ensures { (ds : List ℕ) → net_of result ds ≡ netted (supplies receipts.items) 1 stock ds }
    {
        Supply {
            stock,
            receipts: receipts.into(),
            period: 1,
        }
    }

    // What comes in the period that is due, which is then over.
    fn receive(&mut self) -> u64
        ensures told { result ≡ received_now self.old }
        ensures stock { self.new.stock ≡ self.old.stock }
        ensures room { self.new.stock + result + 1000000000 * deque_len self.new.receipts ≤ 33000000000 }
        ensures later { (stock : ℕ) (ds : List ℕ) → net_with self.new stock ds ≡ net_after self.old stock ds }
    {
        let Some(&next) = self.receipts.front() else {
            return 0;
        };
        let comes_now = u64::from(next.date()) == self.period;
        self.period += 1;
        if !comes_now {
            return 0;
        }
        self.receipts.pop_front();
        next.amount
    }

    // What the demand of the period that is due still wants once what is available is spent on it.
    pub(crate) fn meet(&mut self, gross: u32) -> u32
        ensures net { (ds : List ℕ) → net_of self.old (gross ∷ ds) ≡ result ∷ net_of self.new ds }
        ensures less { result ≤ gross }
    {
        let available = self.stock + self.receive();
        let wanted = u64::from(gross);
        self.stock = available.saturating_sub(wanted);
        wanted.saturating_sub(available) as u32
    }
}
