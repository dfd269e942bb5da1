use std::alloc::{AllocError, Global};
use std::fmt;
use std::str::FromStr;
use thiserror::Error;

/// What is asked of a field.
#[derive(Clone, Copy, PartialEq, Eq, PartialOrd, Ord)]
pub(crate) enum Kind {
    From,
    Product,
    Inverse,
    Power,
    PowerLanes,
    PowerPair,
    Root,
    RootLanes,
    Dot,
}

/// All of them, in the order in which they are told.
pub(crate) const KINDS: [Kind; 9] = [
    Kind::From,
    Kind::Product,
    Kind::Inverse,
    Kind::Power,
    Kind::PowerLanes,
    Kind::PowerPair,
    Kind::Root,
    Kind::RootLanes,
    Kind::Dot,
];

impl Kind {
    // As the cases name it.
    fn name(self) -> &'static str {
        match self {
            Kind::From => "from",
            Kind::Product => "product",
            Kind::Inverse => "inverse",
            Kind::Power => "power",
            Kind::PowerLanes => "power_lanes",
            Kind::PowerPair => "power_pair",
            Kind::Root => "root",
            Kind::RootLanes => "root_lanes",
            Kind::Dot => "dot",
        }
    }
}

impl fmt::Display for Kind {
    fn fmt<W: fmt::Write>(&self, f: &mut fmt::Formatter<W>) -> fmt::Result {
        f.write_str(self.name())
    }
}

impl FromStr for Kind {
    type Err = CaseError;

    // By a `match` of its own: a search through the names of KINDS took twice as long for a word that is none.
    fn from_str(word: &str) -> Result<Kind, CaseError> {
        match word {
            "from" => Ok(Kind::From),
            "product" => Ok(Kind::Product),
            "inverse" => Ok(Kind::Inverse),
            "power" => Ok(Kind::Power),
            "power_lanes" => Ok(Kind::PowerLanes),
            "power_pair" => Ok(Kind::PowerPair),
            "root" => Ok(Kind::Root),
            "root_lanes" => Ok(Kind::RootLanes),
            "dot" => Ok(Kind::Dot),
            _ => Err(CaseError::Form),
        }
    }
}

/// The fields that are asked.
#[derive(Clone, Copy)]
pub(crate) enum Over {
    F17,
    KoalaBear,
    BabyBear,
}

impl TryFrom<i64> for Over {
    type Error = CaseError;

    // By the modulus.
    fn try_from(modulus: i64) -> Result<Over, CaseError> {
        match modulus {
            17 => Ok(Over::F17),
            2130706433 => Ok(Over::KoalaBear),
            2013265921 => Ok(Over::BabyBear),
            _ => Err(CaseError::Form),
        }
    }
}

/// Why a line is no case.
#[derive(Debug, Drop, Error)]
pub(crate) enum CaseError {
    #[error("no case")]
    Form,
    #[error("memory is wanting")]
    Memory(#[from(alloc)] AllocError),
}

/// A line such as `product 17 3 7 = 4`; an inverse that is absent has nothing behind the sign.
#[derive(Drop)]
pub(crate) struct Case {
    pub(crate) kind: Kind,
    pub(crate) over: Over,
    pub(crate) given: Vec<i64>,
    pub(crate) answer: Vec<i64>,
}

impl Case {
    // The words may come in any order: of the kinds the last counts, and `from` where there is none; the
    // first number other than zero is the modulus. Other words are passed over.
    pub(crate) fn read(heap: Global, line: &str) -> Result<Case, CaseError> {
        let mut kind = Kind::From;
        let mut modulus = 0;
        // numbers are pushed one by one: a word that is none does not end the walk
        let mut given = Vec::new(heap);
        // those behind the sign, once it has come
        let mut answer: Option<Vec<i64>> = None;
        for word in line.split_whitespace() {
            match (word.parse::<i64>(), &mut answer) {
                (Ok(n), Some(answer)) => answer.push(n)?,
                (Ok(n), None) if modulus == 0 => modulus = n,
                (Ok(n), None) => given.push(n)?,
                (Err(_), None) if word == "=" => answer = Some(Vec::new(heap)),
                // a second sign is no kind either
                (Err(_), _) => kind = word.parse().unwrap_or(kind),
            }
        }
        Ok(Case {
            kind,
            over: Over::try_from(modulus)?,
            given,
            answer: answer.unwrap_or(Vec::new(heap)),
        })
    }
}
