// What can be wrong with a feed. Its fault keeps that of the record that was read, as it was found.
ghost use Rattle.std.specs.Prelude.{◌≡◌};
ghost use Rattle.feeds.specs.Faults.{record_number, record_place, record_period, fault_number, fault_place, fault_period, fault_layers};

use lots::Refusal;

// Each with the number under which it is told.
#[derive(Clone, Copy, PartialEq, Eq, Debug)]
pub enum RecordFaultKind {
    OtherLayout = 9,
    WrongPeriod,
    DemandTooLarge,
    NothingLeft,
    BytesAfterEnd,
    CutWord,
    BeforeFirstPeriod,
    CancelsTooMuch,
    WrongCount,
}

// What a record reader found, at which byte of the input, counted from 0, and in which period.
#[derive(Clone, Copy, PartialEq, Eq, Debug)]
pub struct RecordFault {
    pub kind: RecordFaultKind,
    pub place: usize,
    pub period: u32,
}

impl RecordFault {
    pub fn place(self) -> usize
        ensures { result ≡ record_place self }
    {
        self.place
    }

    pub fn period(self) -> u32
        ensures { result ≡ record_period self }
    {
        self.period
    }
}

impl Refusal for RecordFault {
    ghost numbered = { record_number };

    fn number(&self) -> u32 {
        self.kind as u32
    }
}

// What the record reader found, and how many layers it has risen through since, held at 255.
#[derive(Clone, Copy, PartialEq, Eq, Debug)]
pub struct FeedFault {
    pub fault: RecordFault,
    pub layers: u8,
}

impl FeedFault {
    pub fn place(self) -> usize
        ensures { result ≡ fault_place self }
    {
        self.fault.place
    }

    pub fn period(self) -> u32
        ensures { result ≡ fault_period self }
    {
        self.fault.period
    }

    pub fn layers(self) -> u8
        ensures { result ≡ fault_layers self }
    {
        self.layers
    }
}

impl Refusal for FeedFault {
    ghost numbered = { fault_number };

    fn number(&self) -> u32 {
        self.fault.number()
    }
}

impl From<RecordFault> for FeedFault {
    ghost from_gives = { λ f r. r ≡ record { fault = f; layers = 0 } };

    fn from(fault: RecordFault) -> FeedFault {
        FeedFault { fault, layers: 0 }
    }
}
