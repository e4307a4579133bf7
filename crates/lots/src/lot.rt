// The lot: what is made in one period to serve a run of periods. Its invariant is part of the type, so whoever holds
// a lot knows it, and whoever makes one or writes to one proves it.
ghost use Rattle.std.specs.Prelude.{◌≡◌, ◌+◌, ◌^◌, ◌<◌, ◌≤◌};
ghost use Rattle.lots.specs.declared.lot.LotKind.TheVariants.{Frozen};

// Frozen lots are never changed by any later forecast; closing lots empty a planner that reads no more.
#[derive(Clone, Copy, PartialEq, Eq, Debug)]
pub enum LotKind {
    Frozen,
    Closing,
}

#[derive(Clone, Copy, PartialEq, Eq, Debug)]
pub struct Lot {
    pub kind: LotKind,
    // The period in which the lot is made, and the last period that it serves.
    pub from: u32,
    pub through: u32,
    pub amount: u32,
    pub cost: u64,
    // How many periods were read when the lot was handed out.
    pub evidence: u32,
    ghost from_first: { 1 ≤ from },
    ghost forward: { from ≤ through },
    ghost read: { through ≤ evidence },
    ghost few: { evidence ≤ 10000 },
    ghost short: { through ≤ from + 255 },
    ghost some: { 1 ≤ amount },
    ghost bounded: { amount ≤ 256000000 },
    ghost affordable: { cost < 2 ^ 60 },
    ghost settled: { kind ≡ Frozen → through < evidence },
}
