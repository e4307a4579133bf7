// Replaying a series of calls on a forecast.
ghost use Rattle.std.specs.Prelude.{◌≡◌, ◌+◌, ◌^◌, ◌<◌, ◌++◌, map, string_bytes, IfOk, OnOk};
ghost use Rattle.std.specs.List.{AllByRecursion};
ghost use Rattle.lots.specs.Lots.{terms};
ghost use Rattle.theory.specs.Series.{taken};
ghost use Rattle.planner.specs.Answers.{answer_of, entry_of, HandsOutFrozen};
ghost use Rattle.planner.specs.Rolling.{frozen_terms};
ghost use Rattle.reporting.specs.Planning.{total_cost};
ghost use Rattle.rolling_report.specs.Replaying.{answer_line, answer_cost, series_lines, replayed};

use feeds::TextFeed;
use lots::Refusal as Numbered;
use planner::{Answer, Call, Entry, Series, run_series};
use reporting::lines::{LotLine, RefusalLine, TotalLine};
use reporting::print::write_lots;
use reporting::{Refusal, costs_of, refusal_line};
use std::alloc::{AllocError, Global};

// Writes the line of an answer.
fn write_answer(out: &mut String, answer: Answer) -> Result<(), AllocError>
    requires { HandsOutFrozen answer }
    ensures { OnOk result (string_bytes out.new ≡ string_bytes out.old ++ answer_line (answer_of answer)) }
{
    match answer {
        Answer::Read(Ok(true)) => writeln!(out, "read yes"),
        Answer::Read(Ok(false)) => writeln!(out, "read no"),
        Answer::Read(Err(refusal)) => write!(out, "{}", RefusalLine::from(Refusal::Read(refusal))),
        Answer::Take(Ok(lot)) => write!(out, "{}", LotLine(lot)),
        Answer::Take(Err(refusal)) => {
            let number = refusal.number();
            write!(out, "{}", RefusalLine { number, place: 0 })
        }
    }
}

// What an answer's lot costs, if it hands out one.
fn cost_of(answer: Answer) -> u64
    ensures { result ≡ answer_cost (answer_of answer) }
{
    match answer {
        Answer::Take(Ok(lot)) => lot.cost,
        _ => 0,
    }
}

// What the lots that were handed out cost together.
fn cost_of_taken(entries: &[Entry]) -> u64
    requires { total_cost (map frozen_terms (taken (map entry_of entries.now))) < 2 ^ 64 }
    ensures { result ≡ total_cost (map frozen_terms (taken (map entry_of entries.now))) }
{
    entries.iter().map(|entry| cost_of(entry.answer)).sum()
}

// The lines of a whole series.
fn print_series(heap: Global, series: &Series) -> Result<Vec<u8>, AllocError>
    requires frozen { AllByRecursion (λ e. HandsOutFrozen e.answer) series.now.entries.items }
    requires fits { total_cost (map frozen_terms (taken (map entry_of series.now.entries.items))) + total_cost (map terms series.now.closing.items) < 2 ^ 64 }
    ensures { IfOk result (λ v. v.items ≡ series_lines (map entry_of series.now.entries.items) (map terms series.now.closing.items)) }
{
    let mut out = String::new(heap);
    for entry in &series.entries {
        write_answer(&mut out, entry.answer)?;
    }
    write_lots(&mut out, &series.closing)?;
    let closing: u64 = series.closing.iter().map(|lot| lot.cost).sum();
    let total = cost_of_taken(&series.entries) + closing;
    write!(out, "{}", TotalLine(total))?;
    Ok(out.into_bytes())
}

// What is printed of calls that are replayed on an input of costs and a forecast text.
pub fn replay(heap: Global, calls: &[Call], input: &[u8]) -> Result<Vec<u8>, AllocError>
    ensures { IfOk result (λ v. v.items ≡ replayed calls.now input.now) }
{
    match costs_of(input) {
        Ok(costs) => {
            let series = run_series(
                heap,
                TextFeed::new(&input[costs.length..]),
                costs.model,
                calls,
            )?;
            print_series(heap, &series)
        }
        Err(refusal) => refusal_line(heap, refusal),
    }
}
