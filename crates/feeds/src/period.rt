// One period of an order file, word by word.
ghost use Rattle.std.specs.Prelude.{◌≡◌, ◌≤◌, ◌-◌, length, drop, IfSome, IfOk};
ghost use Rattle.feeds.specs.Orders.{counted, opens, period_at};
ghost use Rattle.feeds.specs.Periods.{WordTold};

use crate::cursor::Cursor;
use crate::fault::{RecordFault, RecordFaultKind};
use crate::feed::LARGEST_DEMAND;
use lots::word::{Word, WordKind};

// The demand of a period, and the place of what stands behind it.
#[derive(Clone, Copy, PartialEq, Eq, Debug)]
pub struct Period {
    pub demand: u32,
    pub next: usize,
}

impl Cursor<'_> {
    // The word that is due.
    #[tactic(auto, unfolding(lots::specs::Words::word_kind, lots::specs::Words::number_of_word))]
    pub(crate) fn word(&self) -> Result<Word, RecordFault>
        ensures { WordTold self.now.place self.now.handed (drop self.now.place self.now.text.now) result }
    {
        match self.rest() {
            [] => Err(self.fault(RecordFaultKind::NothingLeft)),
            [a, b, c, d, ..] => Ok(Word::from_bytes([*a, *b, *c, *d])),
            _ => Err(self.fault(RecordFaultKind::CutWord)),
        }
    }

    // Whether the word that is due opens the next period; if not, it ends the file.
    pub(crate) fn opens_period(&self, word: Word) -> Result<bool, RecordFault>
        ensures { result ≡ opens self.now.place self.now.handed (length self.now.text.now - self.now.place) word.kind word.number }
    {
        match word.kind {
            WordKind::Zero | WordKind::One => Err(self.fault(RecordFaultKind::BeforeFirstPeriod)),
            WordKind::Two if word.number != self.period() => {
                Err(self.fault(RecordFaultKind::WrongPeriod))
            }
            WordKind::Two => Ok(true),
            WordKind::Three if word.number != self.handed => {
                Err(self.fault(RecordFaultKind::WrongCount))
            }
            WordKind::Three if self.rest().len() > 4 => {
                Err(self.past(4).fault(RecordFaultKind::BytesAfterEnd))
            }
            WordKind::Three => Ok(false),
        }
    }

    // The running sum behind the word that is due, or none where the word is no longer of the period.
    fn count(&self, sum: u32, word: Word) -> Result<Option<u32>, RecordFault>
        requires { sum ≤ 1000000 }
        ensures told { result ≡ counted self.now.place self.now.handed sum word.kind word.number }
        ensures fits { IfOk result (λ o. IfSome o (λ s. s ≤ 1000000)) }
    {
        match word.kind {
            WordKind::Zero if word.number > LARGEST_DEMAND - sum => {
                Err(self.fault(RecordFaultKind::DemandTooLarge))
            }
            WordKind::Zero => Ok(Some(sum + word.number)),
            WordKind::One if word.number > sum => Err(self.fault(RecordFaultKind::CancelsTooMuch)),
            WordKind::One => Ok(Some(sum - word.number)),
            WordKind::Two | WordKind::Three => Ok(None),
        }
    }

    // The period whose words begin here.
    #[tactic(auto, using(crate::proofs::Orderly::word_on, crate::proofs::Orderly::word_cut))]
    pub(crate) fn read_period(&self) -> Result<Period, RecordFault>
        ensures { result ≡ period_at self.now.text.now self.now.handed self.now.place 0 }
    {
        let mut at = *self;
        let mut demand = 0;
        while let Some(sum) = at.count(demand, at.word()?)? {
            demand = sum;
            at = at.past(4);
        }
        Ok(Period {
            demand,
            next: at.place,
        })
    }
}
