// Lines with dates, as cost lines and receipts are, and the one check that serves every kind of them.
ghost use Rattle.std.specs.Prelude.{◌≡◌, ℕ, Option};
ghost use Rattle.std.specs.Result.{result_err};
ghost use Rattle.lots.specs.Dated.{first_allowed, are_dates_right, earned_first, dated_fault, dated_number};

// What the check has to know of a line: its date, and what its own amounts earn, if they are wrong.
// A kind of line without amounts earns nothing, and has a type without values for its fault.
pub trait DatedLine {
    type Fault;

    ghost dated: { Self → ℕ };

    ghost earned: { Self → Option Self.Fault };

    fn date(&self) -> u32
        ensures { result ≡ dated self.now };

    fn fault(&self) -> Option<Self::Fault>
        ensures { result ≡ earned self.now };
}

// A refusal that is told by its number: programs print it, and C callers are answered with it.
pub trait Refusal {
    ghost numbered: { Self → ℕ };

    fn number(&self) -> u32
        ensures { result ≡ numbered self.now };
}

// Which date the first line may have.
#[derive(Clone, Copy, PartialEq, Eq, Debug)]
pub enum FirstDate {
    Exactly(u32),
    AtLeast(u32),
}

impl FirstDate {
    fn allows(self, date: u32) -> bool
        ensures { result ≡ first_allowed self date }
    {
        match self {
            FirstDate::Exactly(d) => date == d,
            FirstDate::AtLeast(d) => d <= date,
        }
    }
}

// Why lines are refused: too few or too many, dates that do not rise or begin wrongly, or what a line earned.
#[derive(Clone, Copy, PartialEq, Eq, Debug)]
pub enum DatedFault<E> {
    Count,
    Dates,
    Line(E),
}

impl<E: Refusal> Refusal for DatedFault<E> {
    ghost numbered = { dated_number E.Refusal.numbered };

    fn number(&self) -> u32 {
        match self {
            DatedFault::Count => 4,
            DatedFault::Dates => 5,
            DatedFault::Line(fault) => fault.number(),
        }
    }
}

// Whether the first date is allowed, and each other later than the one before it.
fn dates_right<L: DatedLine>(lines: &[L], first: FirstDate) -> bool
    ensures { result ≡ are_dates_right L.dated first lines.now }
{
    lines.first().is_none_or(|line| first.allows(line.date()))
        && lines.is_sorted_by(|line, next| line.date() < next.date())
}

fn first_earned<L: DatedLine>(lines: &[L]) -> Option<L::Fault>
    ensures { result ≡ earned_first L.earned lines.now }
{
    lines.iter().find_map(|line| line.fault())
}

// Whether these lines may stand: first their count is looked at, then their dates, then each line's own amounts.
pub fn check_dated<L: DatedLine>(
    lines: &[L],
    fewest: usize,
    most: usize,
    first: FirstDate,
) -> Result<(), DatedFault<L::Fault>>
    ensures { result_err result ≡ dated_fault L.dated L.earned fewest most first lines.now }
{
    if !(fewest..=most).contains(&lines.len()) {
        return Err(DatedFault::Count);
    }
    if !dates_right(lines, first) {
        return Err(DatedFault::Dates);
    }
    // A match, since `map_or` would ask of every kind of fault that it can be dropped.
    match first_earned(lines) {
        Some(fault) => Err(DatedFault::Line(fault)),
        None => Ok(()),
    }
}
