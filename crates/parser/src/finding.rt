// What a finding says: the source's ErrorKind, and LargeFixity, our own. Its number and its detail are grammar's ErrorKind.
ghost use Rattle.std.specs.Prelude.{◌≡◌};
ghost use Rattle.parser.specs.Findings.{code_of, detail_of, name_of, wanted_of};

use crate::NO_NAME;

// What was expected: a phrase, or a token of a kind below 128.
#[derive(Clone, Copy)]
pub enum Expected {
    Exp,
    Lab,
    Pat,
    Path,
    SigExp,
    StrExp,
    Ty,
    LRoundExpTail,
    Item,
    NameOrInt,
    From,
    NameOrString,
    Kind(u8),
}

// What needs parentheses.
#[derive(Clone, Copy)]
pub enum ParensExpFlavor {
    Raise = 1,
    If,
    While,
    Case,
    Fn,
}

// A kind of finding. A name is the index of the token that spells it, if there is one.
#[derive(Clone, Copy)]
pub enum ErrorKind {
    NotInfix(Option<usize>),
    InfixWithoutOp(Option<usize>),
    InvalidFixity,
    NegativeFixity,
    SameFixityDiffAssoc,
    Expected(Expected),
    UnnecessaryOp,
    UnmatchedClosingDelimiter,
    NeedParensAroundExpHere(ParensExpFlavor),
    LargeFixity,
}

impl Expected {
    // The detail of a finding that this was expected.
    fn detail(self) -> u8
        ensures { result ≡ wanted_of self }
    {
        match self {
            Expected::Exp => 1,
            Expected::Lab => 2,
            Expected::Pat => 3,
            Expected::Path => 4,
            Expected::SigExp => 5,
            Expected::StrExp => 6,
            Expected::Ty => 7,
            Expected::LRoundExpTail => 8,
            Expected::Item => 9,
            Expected::NameOrInt => 10,
            Expected::From => 11,
            Expected::NameOrString => 12,
            Expected::Kind(k) => 128 + k % 128,
        }
    }
}

impl ErrorKind {
    // Its number.
    pub fn code(self) -> u8
        ensures { result ≡ code_of self }
    {
        match self {
            ErrorKind::NotInfix(_) => 1,
            ErrorKind::InfixWithoutOp(_) => 2,
            ErrorKind::InvalidFixity => 3,
            ErrorKind::NegativeFixity => 4,
            ErrorKind::SameFixityDiffAssoc => 5,
            ErrorKind::Expected(_) => 6,
            ErrorKind::UnnecessaryOp => 7,
            ErrorKind::UnmatchedClosingDelimiter => 8,
            ErrorKind::NeedParensAroundExpHere(_) => 9,
            ErrorKind::LargeFixity => 10,
        }
    }

    // Its detail, or 0.
    pub fn detail(self) -> u8
        ensures { result ≡ detail_of self }
    {
        match self {
            ErrorKind::Expected(what) => what.detail(),
            ErrorKind::NeedParensAroundExpHere(what) => what as u8,
            _ => 0,
        }
    }

    // The name that it carries, or NO_NAME.
    pub fn name(self) -> usize
        ensures { result ≡ name_of self }
    {
        match self {
            ErrorKind::NotInfix(Some(name)) | ErrorKind::InfixWithoutOp(Some(name)) => name,
            _ => NO_NAME,
        }
    }
}
