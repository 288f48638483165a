// The papers' refusals, a case for each number, so that no other number can be given.
ghost use Rattle.std.specs.Prelude.{◌≡◌};
ghost use Rattle.calendar.specs.Refusal.{number, proposal_number, strip_number, verdict_number, ◌unless◌};
ghost use Rattle.calendar.specs.declared.refusal.Refusal.TheVariants.{Strip, Proposal};

// Of a day strip: 02's, from 20 on.
#[derive(Clone, Copy)]
pub enum StripRefusal {
    Length,
    Version,
    AirOrBody,
    Date,
    Point,
    Step,
    Azimuth,
    NotFound,
    Buffer,
    MeasuredAir,
}

// Of a proposal: 02's 29 and 30.
#[derive(Clone, Copy)]
pub enum ProposalRefusal {
    Points,
    Opposite,
}

// 13 and 31 are not among them: they carry an index and a minute, and have a case of their own in a batch's and in a judge's answer.
#[derive(Clone, Copy)]
pub enum Refusal {
    Year,
    Month,
    Day,
    Clock,
    Ut1,
    DeltaT,
    Longitude,
    Latitude,
    Height,
    Pressure,
    Temperature,
    ShortBuffer,
    Opposite,
    NotReduced,
    NotALine,
    Strip(StripRefusal),
    Proposal(ProposalRefusal),
}

impl StripRefusal {
    // The paper's number.
    pub fn number(self) -> u32
        ensures { result ≡ strip_number self }
    {
        match self {
            StripRefusal::Length => 20,
            StripRefusal::Version => 21,
            StripRefusal::AirOrBody => 22,
            StripRefusal::Date => 23,
            StripRefusal::Point => 24,
            StripRefusal::Step => 25,
            StripRefusal::Azimuth => 26,
            StripRefusal::NotFound => 27,
            StripRefusal::Buffer => 28,
            StripRefusal::MeasuredAir => 32,
        }
    }
}

impl ProposalRefusal {
    // The paper's number.
    pub fn number(self) -> u32
        ensures { result ≡ proposal_number self }
    {
        match self {
            ProposalRefusal::Points => 29,
            ProposalRefusal::Opposite => 30,
        }
    }
}

impl Refusal {
    // The paper's number.
    pub fn number(self) -> u32
        ensures { result ≡ number self }
    {
        match self {
            Refusal::Year => 1,
            Refusal::Month => 2,
            Refusal::Day => 3,
            Refusal::Clock => 4,
            Refusal::Ut1 => 5,
            Refusal::DeltaT => 6,
            Refusal::Longitude => 7,
            Refusal::Latitude => 8,
            Refusal::Height => 9,
            Refusal::Pressure => 10,
            Refusal::Temperature => 11,
            Refusal::ShortBuffer => 12,
            Refusal::Opposite => 14,
            Refusal::NotReduced => 15,
            Refusal::NotALine => 16,
            Refusal::Strip(of_strip) => of_strip.number(),
            Refusal::Proposal(of_proposal) => of_proposal.number(),
        }
    }
}

impl From<StripRefusal> for Refusal {
    ghost from_gives = { λ of_strip refusal. refusal ≡ Strip of_strip };

    fn from(of_strip: StripRefusal) -> Self {
        Self::Strip(of_strip)
    }
}

impl From<ProposalRefusal> for Refusal {
    ghost from_gives = { λ of_proposal refusal. refusal ≡ Proposal of_proposal };

    fn from(of_proposal: ProposalRefusal) -> Self {
        Self::Proposal(of_proposal)
    }
}

// The refusal unless the check passes.
pub fn unless(refusal: Refusal, passes: bool) -> Result<(), Refusal>
    ensures { verdict_number result ≡ number refusal unless passes }
{
    if passes { Ok(()) } else { Err(refusal) }
}
