// The text feed: a forecast in lines of text.
ghost use Rattle.std.specs.Prelude.{drop};
ghost use Rattle.std.proofs.Common.{rules};
ghost use Rattle.feeds.specs.Text.{forecast};
ghost use Rattle.feeds.specs.SmallDemands.{text_small};

use crate::cursor::Cursor;
use crate::fault::{RecordFault, RecordFaultKind};
use crate::feed::LARGEST_DEMAND;
use crate::format::{ByteFeed, Format};
use crate::line::{Front, line_at, look_at};
use crate::period::Period;

// Lines of a period and its demand, then the line `end`.
#[derive(Clone, Copy, Debug)]
pub struct TextLines;

// A feed over such lines, read straight from the caller's bytes.
pub type TextFeed<'a> = ByteFeed<'a, TextLines>;

impl Format for TextLines {
    ghost forecast = { λ text place handed. forecast place handed (drop place text) };

    ghost most = { 9999999 };

    #[tactic(auto, using(crate::proofs::Texts::text_step), unfolding(crate::specs::Text::record_at))]
    fn read(at: &Cursor<'_>) -> Result<Option<Period>, RecordFault> {
        let rest = at.rest();
        match look_at(rest) {
            Front::Nothing => Err(at.fault(RecordFaultKind::NothingLeft)),
            Front::End => Ok(None),
            Front::EndAndMore => Err(at.past(4).fault(RecordFaultKind::BytesAfterEnd)),
            Front::Other => match line_at(rest) {
                None => Err(at.fault(RecordFaultKind::OtherLayout)),
                Some(line) if line.period != at.period() => {
                    Err(at.fault(RecordFaultKind::WrongPeriod))
                }
                Some(line) if line.demand > LARGEST_DEMAND => {
                    Err(at.fault(RecordFaultKind::DemandTooLarge))
                }
                Some(line) => Ok(Some(Period {
                    demand: line.demand,
                    next: at.place + line.length,
                })),
            },
        }
    }

    ghost small = { λ text place handed. text_small place handed (drop place text) };

    ghost few = { Prim.search rules };
}
