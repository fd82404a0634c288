// Why a call turns its caller down.
#![tactic(auto)]

ghost use Rattle.std.specs.Prelude.{◌≡◌};
ghost use Rattle.refusal.specs.Numbers.{number, operator, word};

use std::error::Error;
use std::fmt;

// One case for each refusal; the first three name an operator by its place in the plan.
#[derive(Clone, Copy, PartialEq, Eq, Debug)]
pub enum Refusal {
    Misfit(usize),
    BadBlock(usize),
    BadCondition(usize),
    Outsize,
    BadList,
    Short,
    Version,
    Torn,
    Stranger,
    Unreadable,
    NoFit,
    BadSource,
}

impl Refusal {
    // The number by which a controller reports it; `u8::from` would not say which number.
    pub fn number(self) -> u8
        ensures { result ≡ number self }
    {
        match self {
            Refusal::Misfit(_) => 1,
            Refusal::BadBlock(_) => 2,
            Refusal::BadCondition(_) => 3,
            Refusal::Outsize => 4,
            Refusal::BadList => 5,
            Refusal::Short => 6,
            Refusal::Version => 7,
            Refusal::Torn => 8,
            Refusal::Stranger => 9,
            Refusal::Unreadable => 10,
            Refusal::NoFit => 11,
            Refusal::BadSource => 12,
        }
    }

    // The operator that it names, if it names one.
    pub fn operator(self) -> Option<usize>
        ensures { result ≡ operator self }
    {
        match self {
            Refusal::Misfit(at) | Refusal::BadBlock(at) | Refusal::BadCondition(at) => Some(at),
            _ => None,
        }
    }

    // The word for it.
    pub fn word(self) -> &'static str
        ensures { result.now ≡ word self }
    {
        match self {
            Refusal::Misfit(_) => "misfit",
            Refusal::BadBlock(_) => "bad block",
            Refusal::BadCondition(_) => "bad condition",
            Refusal::Outsize => "outsize",
            Refusal::BadList => "bad list",
            Refusal::Short => "short",
            Refusal::Version => "version",
            Refusal::Torn => "torn",
            Refusal::Stranger => "stranger",
            Refusal::Unreadable => "unreadable",
            Refusal::NoFit => "no fit",
            Refusal::BadSource => "bad source",
        }
    }
}

// Its number and word, and the operator that it names.
impl fmt::Display for Refusal {
    ghost use Rattle.std.specs.Prelude.{Some};
    ghost use Rattle.refusal.specs.Texts.{text};

    ghost output = { λ e. Some (text e) };

    fn fmt<W: fmt::Write>(&self, f: &mut fmt::Formatter<W>) -> fmt::Result {
        let number = self.number();
        let word = self.word();
        match self.operator() {
            Some(at) => write!(f, "{number} {word}, operator {at}"),
            None => write!(f, "{number} {word}"),
        }
    }
}

impl Error for Refusal {}
