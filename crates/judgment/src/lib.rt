// The result (errors.rs): why a run is refused, as document 01's number and details. The judgment rules are definitions, in specs/.
#![tactic(auto)]

ghost use Rattle.std.specs.Prelude.{◌≡◌};
ghost use Rattle.judgment.specs.Result.{error_number, error_details, numbers, refused_at};

// The errors that worklist.rs raises, the limits, and the strict call's scope. A type is here by its number of nodes; its nodes go into the report.
#[derive(Clone, Copy)]
pub enum TypeError {
    UnboundVariable(u32),
    UnboundDataConstructor(u32),
    NotAFunction(u32),
    ArityMismatch(u32, u32),
    SubtypingError(u32, u32),
    TypeUnificationError,
    InstantiationError(u32, u32),
    // The number of arguments; one is expected.
    IntrinsicArityMismatch(u32),
    UnknownIntrinsic(u32),
    BoardFull,
    TypeTooLong,
    NoFreshNumber,
    SolutionsFull,
    OutOfScope,
}

// The seven numbers.
#[derive(Clone, Copy)]
pub struct Answer {
    pub number: u32,
    pub line: u32,
    pub taken: u32,
    pub fresh: u32,
    pub detail1: u32,
    pub detail2: u32,
    pub plain: u32,
}

impl Answer {
    // Of a call that came to no run.
    pub fn refused(number: u32, line: u32) -> Answer
        ensures { result ≡ refused_at number line }
    {
        Answer {
            number,
            line,
            taken: 0,
            fresh: 0,
            detail1: 0,
            detail2: 0,
            plain: 0,
        }
    }

    // In the order in which a caller reads them.
    pub fn numbers(self) -> [u32; 7]
        ensures { result ≡ numbers self }
    {
        [
            self.number,
            self.line,
            self.taken,
            self.fresh,
            self.detail1,
            self.detail2,
            self.plain,
        ]
    }
}

#[derive(Clone, Copy)]
pub struct Details(pub u32, pub u32);

pub fn error_number(e: TypeError) -> u32
    ensures { result ≡ error_number e }
{
    match e {
        TypeError::UnboundVariable(_) => 11,
        TypeError::UnboundDataConstructor(_) => 12,
        TypeError::NotAFunction(_) => 13,
        TypeError::ArityMismatch(_, _) => 14,
        TypeError::SubtypingError(_, _) => 15,
        TypeError::TypeUnificationError => 16,
        TypeError::InstantiationError(_, _) => 17,
        TypeError::IntrinsicArityMismatch(_) => 18,
        TypeError::UnknownIntrinsic(_) => 19,
        TypeError::BoardFull => 22,
        TypeError::TypeTooLong => 23,
        TypeError::NoFreshNumber => 24,
        TypeError::SolutionsFull => 25,
        TypeError::OutOfScope => 39,
    }
}

pub fn error_details(e: TypeError) -> Details
    ensures { result ≡ error_details e }
{
    match e {
        TypeError::UnboundVariable(name) => Details(name, 0),
        TypeError::UnboundDataConstructor(name) => Details(name, 0),
        TypeError::NotAFunction(nodes) => Details(nodes, 0),
        TypeError::ArityMismatch(expected, actual) => Details(expected, actual),
        TypeError::SubtypingError(left, right) => Details(left, right),
        TypeError::TypeUnificationError => Details(0, 0),
        TypeError::InstantiationError(unknown, nodes) => Details(unknown, nodes),
        TypeError::IntrinsicArityMismatch(actual) => Details(1, actual),
        TypeError::UnknownIntrinsic(name) => Details(name, 0),
        TypeError::BoardFull => Details(0, 0),
        TypeError::TypeTooLong => Details(0, 0),
        TypeError::NoFreshNumber => Details(0, 0),
        TypeError::SolutionsFull => Details(0, 0),
        TypeError::OutOfScope => Details(0, 0),
    }
}
