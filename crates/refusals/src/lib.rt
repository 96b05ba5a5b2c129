// The refusals, each named once, their numbers, and an error: what is refused and the place.
#![tactic(auto)]

ghost use Rattle.std.specs.Prelude.{◌≡◌, ℕ};
ghost use Rattle.refusals.specs.Numbers.{number};

#[derive(Clone, Copy, PartialEq, Eq, Debug)]
pub enum Refusal {
    // By the sheet: a field cut off by the end; too many facts; a byte that no name has; too many rules.
    CutOff,
    ManyFacts,
    Unprintable,
    ManyRules,
    // A set with an absent fact.
    AbsentFact,
    // No nodes or too many; a kind that is none; a node number that is not allowed there; an unused field that is not 0.
    WrongNodes,
    WrongKind,
    WrongNode,
    UsedField,
    // Too few starts or too many; too many threads of a start; bytes after the last start; a node that opens to too many threads.
    WrongStarts,
    ManyThreads,
    BytesLeft,
    WideNode,
    // By the choice: a start that is not on the sheet.
    AbsentStart,
    // By the state: a set that passes a limit; an answer slice, and a work slice, that is too short.
    LargeSet,
    ShortAnswer,
    ShortWork,
}

impl Refusal {
    // This refusal at a place.
    pub fn at(self, place: usize) -> Refused
        ensures { result ≡ record { refusal = self; place = place } }
    {
        Refused {
            refusal: self,
            place,
        }
    }
}

// The number of a refusal; 6 is no longer given. sheets/specs/Refusals has the same for the definitions.
impl From<Refusal> for u8 {
    ghost from_gives = { λ r n. n ≡ number r };

    fn from(refusal: Refusal) -> u8 {
        match refusal {
            Refusal::CutOff => 1,
            Refusal::ManyFacts => 2,
            Refusal::Unprintable => 3,
            Refusal::ManyRules => 4,
            Refusal::AbsentFact => 5,
            Refusal::WrongNodes => 7,
            Refusal::WrongKind => 8,
            Refusal::WrongNode => 9,
            Refusal::UsedField => 10,
            Refusal::WrongStarts => 11,
            Refusal::ManyThreads => 12,
            Refusal::BytesLeft => 13,
            Refusal::AbsentStart => 14,
            Refusal::WideNode => 15,
            Refusal::LargeSet => 21,
            Refusal::ShortAnswer => 22,
            Refusal::ShortWork => 23,
        }
    }
}

// What is refused and the place.
#[derive(Clone, Copy, PartialEq, Eq, Debug)]
pub struct Refused {
    pub refusal: Refusal,
    pub place: usize,
}

impl Refused {
    // The number of what is refused.
    pub fn number(self) -> u8
        ensures { result ≡ number self.refusal }
    {
        u8::from(self.refusal)
    }
}

// What an error says of a refusal: its number and the place.
pub trait Refuses: Copy {
    ghost number_of: { Self → ℕ };

    ghost place_of: { Self → ℕ };

    // The number.
    fn refusal_number(self) -> u8
        ensures { result ≡ number_of self };

    // The place.
    fn refusal_place(self) -> usize
        ensures { result ≡ place_of self };
}

impl Refuses for Refused {
    ghost number_of = { λ r. number r.refusal };

    ghost place_of = { λ r. r.place };

    fn refusal_number(self) -> u8 {
        self.number()
    }

    fn refusal_place(self) -> usize {
        self.place
    }
}

// Any number with any place.
impl Refuses for (u8, usize) {
    ghost number_of = { λ r. r.0 };

    ghost place_of = { λ r. r.1 };

    fn refusal_number(self) -> u8 {
        self.0
    }

    fn refusal_place(self) -> usize {
        self.1
    }
}
