//! What became of candidates.

ghost use Rattle.std.specs.Prelude.{◌≡◌, ◌<◌};
ghost use Rattle.reception_report.specs.Outcomes as outcomes;

use dsmcc_section::Skip;
use tuner_core::{Cause, Fed, Taken};

/// What a candidate did, or why it changed nothing: [`Fed`] without places.
#[derive(Clone, Copy, Debug, PartialEq, Eq)]
pub enum Outcome {
    Changed,
    Short,
    Length,
    OtherTable,
    NoSyntax,
    NotCurrent,
    BadCrc,
    NotControl,
    NotDdb,
    NoGateway,
    SameDsi,
    OtherDii,
    DiiOverLimit,
    SameDii,
    NoDii,
    OtherDownload,
    Unlisted,
    OtherVersion,
    Compressed,
    WrongPlace,
    WrongLength,
    Again,
}

/// How many kinds there are.
pub(crate) const OUTCOMES: usize = 22;

/// The kinds in the order in which they are counted.
pub(crate) const ALL_OUTCOMES: [Outcome; OUTCOMES] = [
    Outcome::Changed,
    Outcome::Short,
    Outcome::Length,
    Outcome::OtherTable,
    Outcome::NoSyntax,
    Outcome::NotCurrent,
    Outcome::BadCrc,
    Outcome::NotControl,
    Outcome::NotDdb,
    Outcome::NoGateway,
    Outcome::SameDsi,
    Outcome::OtherDii,
    Outcome::DiiOverLimit,
    Outcome::SameDii,
    Outcome::NoDii,
    Outcome::OtherDownload,
    Outcome::Unlisted,
    Outcome::OtherVersion,
    Outcome::Compressed,
    Outcome::WrongPlace,
    Outcome::WrongLength,
    Outcome::Again,
];

impl Outcome {
    /// The kind of what a candidate did.
    pub(crate) fn of(fed: Fed) -> Outcome
        ensures { result ≡ outcomes.outcome_of fed }
    {
        match fed {
            Fed::Changed => Outcome::Changed,
            Fed::Nothing(cause) => of_cause(cause),
        }
    }

    /// Its place among all.
    pub(crate) fn place(self) -> usize
        ensures place { result ≡ outcomes.place_of self }
        ensures within { result < OUTCOMES }
    {
        match self {
            Outcome::Changed => 0,
            Outcome::Short => 1,
            Outcome::Length => 2,
            Outcome::OtherTable => 3,
            Outcome::NoSyntax => 4,
            Outcome::NotCurrent => 5,
            Outcome::BadCrc => 6,
            Outcome::NotControl => 7,
            Outcome::NotDdb => 8,
            Outcome::NoGateway => 9,
            Outcome::SameDsi => 10,
            Outcome::OtherDii => 11,
            Outcome::DiiOverLimit => 12,
            Outcome::SameDii => 13,
            Outcome::NoDii => 14,
            Outcome::OtherDownload => 15,
            Outcome::Unlisted => 16,
            Outcome::OtherVersion => 17,
            Outcome::Compressed => 18,
            Outcome::WrongPlace => 19,
            Outcome::WrongLength => 20,
            Outcome::Again => 21,
        }
    }

    /// Its name in a report.
    pub(crate) fn name(self) -> &'static str
        ensures { result.now ≡ outcomes.outcome_name self }
    {
        match self {
            Outcome::Changed => "changed",
            Outcome::Short => "short",
            Outcome::Length => "length",
            Outcome::OtherTable => "other-table",
            Outcome::NoSyntax => "no-syntax",
            Outcome::NotCurrent => "not-current",
            Outcome::BadCrc => "bad-crc",
            Outcome::NotControl => "not-control",
            Outcome::NotDdb => "not-ddb",
            Outcome::NoGateway => "no-gateway",
            Outcome::SameDsi => "same-dsi",
            Outcome::OtherDii => "other-dii",
            Outcome::DiiOverLimit => "dii-over-limit",
            Outcome::SameDii => "same-dii",
            Outcome::NoDii => "block-no-dii",
            Outcome::OtherDownload => "block-other-download",
            Outcome::Unlisted => "block-unlisted",
            Outcome::OtherVersion => "block-other-version",
            Outcome::Compressed => "block-compressed",
            Outcome::WrongPlace => "block-wrong-place",
            Outcome::WrongLength => "block-wrong-length",
            Outcome::Again => "block-again",
        }
    }
}

fn of_cause(cause: Cause) -> Outcome
    ensures { result ≡ outcomes.outcome_of_cause cause }
{
    match cause {
        Cause::Section(skip) => of_skip(skip),
        Cause::NotControl(_) => Outcome::NotControl,
        Cause::NotDdb(_) => Outcome::NotDdb,
        Cause::NoGateway => Outcome::NoGateway,
        Cause::SameDsi => Outcome::SameDsi,
        Cause::OtherDii => Outcome::OtherDii,
        Cause::DiiOverLimit => Outcome::DiiOverLimit,
        Cause::SameDii => Outcome::SameDii,
        Cause::Block(taken) => of_taken(taken),
    }
}

fn of_skip(skip: Skip) -> Outcome
    ensures { result ≡ outcomes.outcome_of_skip skip }
{
    match skip {
        Skip::Short => Outcome::Short,
        Skip::Length => Outcome::Length,
        Skip::OtherTable => Outcome::OtherTable,
        Skip::NoSyntax => Outcome::NoSyntax,
        Skip::NotCurrent => Outcome::NotCurrent,
        Skip::BadCrc => Outcome::BadCrc,
    }
}

fn of_taken(taken: Taken) -> Outcome
    ensures { result ≡ outcomes.outcome_of_taken taken }
{
    match taken {
        Taken::NoDii => Outcome::NoDii,
        Taken::OtherDownload => Outcome::OtherDownload,
        Taken::Unlisted => Outcome::Unlisted,
        Taken::OtherVersion => Outcome::OtherVersion,
        Taken::Compressed => Outcome::Compressed,
        Taken::WrongPlace => Outcome::WrongPlace,
        Taken::WrongLength => Outcome::WrongLength,
        Taken::Again => Outcome::Again,
        Taken::New => Outcome::Changed,
    }
}
