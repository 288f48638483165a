// What an export refuses, and how its answer is written through references. A generic value stands behind a reference whole: the logic is not told how long the list behind such a reference is.
ghost use Rattle.std.specs.Prelude.{◌≡◌};
ghost use Rattle.boundary.specs.Fault.{batch_fault, fault_number, fault_of, judge_fault, left_as, left_by, step_fault};
ghost use Rattle.boundary.specs.declared.fault.Fault.TheVariants.{Refused};

use batch::samples::BatchRefusal;
use calendar::refusal::{Refusal, StripRefusal};
use proposal::judge::Objection;
use strip_reader::reader::StepRefusal;

// A code that is unknown, what the papers do not number, an answer of the planner, and the papers' refusals: two carry an index and a minute.
#[derive(Clone, Copy)]
pub enum Fault {
    UnknownBody,
    UnknownAir,
    NoElevation,
    OutOfReach,
    NoDisks,
    NoStep,
    NoPlan,
    Late(usize),
    Out(u32),
    Refused(Refusal),
}

impl Fault {
    // As C is told of it.
    pub fn number(self) -> u32
        ensures { result ≡ fault_number self }
    {
        match self {
            Fault::UnknownBody => 101,
            Fault::UnknownAir => 102,
            Fault::NoElevation => 103,
            Fault::OutOfReach => 104,
            Fault::NoDisks => 105,
            Fault::NoStep => 106,
            Fault::NoPlan => 107,
            Fault::Late(_) => 13,
            Fault::Out(_) => 31,
            Fault::Refused(refusal) => refusal.number(),
        }
    }
}

impl From<Refusal> for Fault {
    ghost from_gives = { λ refusal fault. fault ≡ Refused refusal };

    fn from(refusal: Refusal) -> Self {
        Self::Refused(refusal)
    }
}

impl From<BatchRefusal> for Fault {
    ghost from_gives = { λ refusal fault. fault ≡ batch_fault refusal };

    fn from(refusal: BatchRefusal) -> Self {
        match refusal {
            BatchRefusal::Request(refusal) => Self::Refused(refusal),
            BatchRefusal::Late(index) => Self::Late(index),
        }
    }
}

impl From<Objection> for Fault {
    ghost from_gives = { λ objection fault. fault ≡ judge_fault objection };

    fn from(objection: Objection) -> Self {
        match objection {
            Objection::Refused(refusal) => Self::Refused(refusal),
            Objection::Out(minute) => Self::Out(minute),
        }
    }
}

impl From<StepRefusal> for Fault {
    ghost from_gives = { λ refusal fault. fault ≡ step_fault refusal };

    fn from(refusal: StepRefusal) -> Self {
        match refusal {
            StepRefusal::NoStep => Self::NoStep,
            StepRefusal::NoAzimuth => Self::Refused(Refusal::Strip(StripRefusal::Azimuth)),
        }
    }
}

// The value is written, or the fault is told by its number, and nothing is written.
pub fn put<T: Drop>(lent: &mut T, answer: Result<T, Fault>) -> u32
    ensures value { result ≡ fault_of answer }
    ensures lent_after { lent.new ≡ left_by answer lent.old }
{
    match answer {
        Ok(value) => {
            *lent = value;
            0
        }
        Err(fault) => fault.number(),
    }
}

// The same of a value in two parts.
pub fn put_both<T: Drop, U: Drop>(
    first: &mut T,
    second: &mut U,
    answer: Result<(T, U), Fault>,
) -> u32
    ensures value { result ≡ fault_of answer }
    ensures first_after { first.new ≡ left_as (λ parts. parts.0) answer first.old }
    ensures second_after { second.new ≡ left_as (λ parts. parts.1) answer second.old }
{
    match answer {
        Ok((one, other)) => {
            *first = one;
            *second = other;
            0
        }
        Err(fault) => fault.number(),
    }
}
