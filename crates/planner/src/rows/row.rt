// What the planner keeps of the periods it has read.

// What is known of one horizon.
#[derive(Clone, Copy)]
pub struct Row {
    // The demand of all periods through the horizon.
    pub demanded: u64,
    // The least cost of any plan for these periods.
    pub least: u64,
    // The last setup of the plan with that cost. It is 0 where nothing is made, and no `None`: the recursion of the theory
    // counts from there, and periods are compared with it.
    pub last: u32,
}

// A period after the base.
#[derive(Clone, Copy)]
pub struct Period {
    // What is known of it as a horizon.
    pub row: Row,
    // What the periods read cost with their last setup in it; kept up to date only as long as it can still win.
    pub option: u64,
}

// The periods that one lot serves; it is made in the first of them.
#[derive(Clone, Copy, PartialEq, Eq)]
pub struct Span {
    pub from: u32,
    pub through: u32,
}
