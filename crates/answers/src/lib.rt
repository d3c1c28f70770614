// What the calls answer: the refusals by name, with their numbers, and the three verdicts. A call answers a `Result` with its values,
// or `()` where it has none to give.
#![tactic(auto)]

ghost use Rattle.std.specs.Prelude.{◌≡◌};
ghost use Rattle.answers.specs.Said.{number_of, verdict_number};

// Why a call was refused, in the order of the numbers: 1 to 16, 19 and 20. 17 and 18 belong to no call yet.
#[derive(Clone, Copy, Debug, PartialEq, Eq)]
pub enum Refusal {
    Length,
    Version,
    Range,
    Offset,
    Masks,
    Formula,
    Slots,
    Nodes,
    State,
    Finished,
    Nowhere,
    Outside,
    Already,
    Unready,
    Ticks,
    Text,
    Run,
    Clash,
}

impl From<Refusal> for u32 {
    ghost from_gives = { λ refusal number. number ≡ number_of refusal };

    fn from(refusal: Refusal) -> u32 {
        match refusal {
            Refusal::Length => 1,
            Refusal::Version => 2,
            Refusal::Range => 3,
            Refusal::Offset => 4,
            Refusal::Masks => 5,
            Refusal::Formula => 6,
            Refusal::Slots => 7,
            Refusal::Nodes => 8,
            Refusal::State => 9,
            Refusal::Finished => 10,
            Refusal::Nowhere => 11,
            Refusal::Outside => 12,
            Refusal::Already => 13,
            Refusal::Unready => 14,
            Refusal::Ticks => 15,
            Refusal::Text => 16,
            Refusal::Run => 19,
            Refusal::Clash => 20,
        }
    }
}

// What is known of a rule after some ticks.
#[derive(Clone, Copy, Debug, PartialEq, Eq)]
pub enum Verdict {
    False,
    True,
    Pending,
}

impl From<Verdict> for u32 {
    ghost from_gives = { λ verdict number. number ≡ verdict_number verdict };

    fn from(verdict: Verdict) -> u32 {
        match verdict {
            Verdict::False => 0,
            Verdict::True => 1,
            Verdict::Pending => 2,
        }
    }
}
