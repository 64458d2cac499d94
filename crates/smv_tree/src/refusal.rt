//! Refusals: a source is refused by the first rule that it breaks, at that rule's first place.

ghost use Rattle.std.specs.Prelude.{◌≡◌, Some};
ghost use Rattle.smv_tree.specs.Texts.{rule_text, refusal_text};
ghost use Rattle.smv_tree.specs.declared.refusal.TextStop.TheVariants.{NoMemory};

use crate::Place;
use plain_text::Text;
use std::alloc::AllocError;
use std::fmt;

/// A rule that a source may break. Each prints as its number and name.
#[derive(Clone, Copy, Debug, PartialEq, Eq)]
pub enum Rule {
    /// The source is longer than 16777216 bytes.
    SourceTooLarge,
    /// A byte begins no token.
    BadByte,
    /// A comment that begins with `/--` is not closed.
    OpenComment,
    /// A word constant is out of form: its digits, its width, or its value.
    BadWordConstant,
    /// An integer is greater than 2147483647.
    IntTooLarge,
    /// A token has no place where it stands, or the source ends too early.
    Unexpected,
    /// A token opens the 257th level of nesting.
    TooDeep,
    /// The source goes beyond the language.
    Unsupported,
    /// There is no module `main`.
    NoMain,
    /// The module `main` has parameters.
    MainHasParameters,
    /// Two modules have one name.
    DuplicateModule,
    /// A name leads nowhere.
    UnknownName,
    /// A module declares a name twice.
    DuplicateName,
    /// A type names no module.
    UnknownModule,
    /// An instance is given more or fewer expressions than its module has parameters.
    ArgumentCount,
    /// A module is an instance of itself.
    ModuleCycle,
    /// A definition leads to itself.
    DefineCycle,
    /// An expression nests too deep, where names are followed.
    UnfoldedDepth,
    /// There are more than 100000 instances.
    TooManyInstances,
    /// There are more than 65536 variables.
    TooManySlots,
    /// An operand, or what is assigned or claimed, is of another kind.
    TypeMismatch,
    /// A word is as wide as no word is, a signed one loses bits, or a constant is outside its word's range.
    WordWidth,
    /// The first bound of a range is greater than the second.
    EmptyRange,
    /// What is no constant stands where one is asked.
    NotConstant,
    /// A set stands where one value is asked.
    SetHere,
    /// `next` stands where no next value is.
    NextHere,
    /// An input stands where no step is.
    InputHere,
    /// A temporal operator stands where none may.
    TemporalHere,
    /// An integer may pass 32 bits.
    IntWidth,
    /// An enumeration has an element twice.
    DuplicateElement,
    /// What is assigned is no variable of the state.
    NotAssignable,
    /// Bits are taken that a word does not have, or an element that an array does not have.
    BadSelection,
    /// The bounds of a temporal operator are out of order or too large.
    BadBound,
    /// A variable is assigned twice.
    AssignedTwice,
    /// Assignments of one time depend on each other.
    AssignCycle,
    /// The bits of a state and of the inputs are more than 65536.
    TooManyBits,
    /// No condition of a `case` is TRUE.
    CaseOpen,
    /// A value is none of those of the variable that is assigned.
    OutOfRange,
    /// An element is taken that an array does not have.
    IndexOutside,
    /// A divisor is 0.
    DivisorZero,
    /// A word is shifted by less than 0, or by more than its width.
    ShiftTooFar,
    /// A line of a certificate is not as it should be.
    BadCertificate,
    /// A line of a trace is not as it should be.
    BadTrace,
}

/// Why a text is not read.
#[derive(Debug, Drop)]
pub enum TextStop {
    /// It is refused.
    Refused(Refusal),
    /// Memory was refused, which may come at any time.
    NoMemory,
}

impl From<AllocError> for TextStop {
    ghost from_gives = { λ _ e. e ≡ NoMemory };

    fn from(_error: AllocError) -> TextStop {
        TextStop::NoMemory
    }
}

/// Why a source is refused, and where; some rules name a detail.
#[derive(Debug, Drop)]
pub struct Refusal {
    pub rule: Rule,
    pub place: Place,
    pub detail: Option<Text>,
}

impl fmt::Display for Rule {
    ghost output = { λ r. Some (rule_text r) };

    fn fmt<W: fmt::Write>(&self, f: &mut fmt::Formatter<W>) -> fmt::Result {
        f.write_str(number_and_name(*self))
    }
}

fn number_and_name(rule: Rule) -> &'static str
    ensures { result.now ≡ rule_text rule }
{
    match rule {
        Rule::SourceTooLarge => "105 SourceTooLarge",
        Rule::BadByte => "101 BadByte",
        Rule::OpenComment => "102 OpenComment",
        Rule::BadWordConstant => "103 BadWordConstant",
        Rule::IntTooLarge => "104 IntTooLarge",
        Rule::Unexpected => "201 Unexpected",
        Rule::TooDeep => "202 TooDeep",
        Rule::Unsupported => "203 Unsupported",
        Rule::NoMain => "301 NoMain",
        Rule::MainHasParameters => "302 MainHasParameters",
        Rule::DuplicateModule => "303 DuplicateModule",
        Rule::UnknownName => "304 UnknownName",
        Rule::DuplicateName => "305 DuplicateName",
        Rule::UnknownModule => "306 UnknownModule",
        Rule::ArgumentCount => "307 ArgumentCount",
        Rule::ModuleCycle => "308 ModuleCycle",
        Rule::DefineCycle => "309 DefineCycle",
        Rule::UnfoldedDepth => "310 UnfoldedDepth",
        Rule::TooManyInstances => "311 TooManyInstances",
        Rule::TooManySlots => "312 TooManySlots",
        Rule::TypeMismatch => "401 TypeMismatch",
        Rule::WordWidth => "402 WordWidth",
        Rule::EmptyRange => "403 EmptyRange",
        Rule::NotConstant => "404 NotConstant",
        Rule::SetHere => "405 SetHere",
        Rule::NextHere => "406 NextHere",
        Rule::InputHere => "407 InputHere",
        Rule::TemporalHere => "408 TemporalHere",
        Rule::IntWidth => "409 IntWidth",
        Rule::DuplicateElement => "410 DuplicateElement",
        Rule::NotAssignable => "411 NotAssignable",
        Rule::BadSelection => "412 BadSelection",
        Rule::BadBound => "413 BadBound",
        Rule::AssignedTwice => "501 AssignedTwice",
        Rule::AssignCycle => "502 AssignCycle",
        Rule::TooManyBits => "511 TooManyBits",
        Rule::CaseOpen => "601 CaseOpen",
        Rule::OutOfRange => "602 OutOfRange",
        Rule::IndexOutside => "603 IndexOutside",
        Rule::DivisorZero => "604 DivisorZero",
        Rule::ShiftTooFar => "605 ShiftTooFar",
        Rule::BadCertificate => "701 BadCertificate",
        Rule::BadTrace => "702 BadTrace",
    }
}

/// A line of a report.
impl fmt::Display for Refusal {
    ghost output = { λ r. Some (refusal_text r) };

    fn fmt<W: fmt::Write>(&self, f: &mut fmt::Formatter<W>) -> fmt::Result {
        let (rule, place) = (self.rule, self.place);
        match &self.detail {
            None => writeln!(f, "-- refused {rule} at {place}"),
            Some(detail) => writeln!(f, "-- refused {rule} at {place}: {detail}"),
        }
    }
}
