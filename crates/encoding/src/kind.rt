// The kind of a call, by its number: a list comes in as numbers.
ghost use Rattle.std.specs.Prelude.{◌≡◌, ◌<◌, None, IfSome};
ghost use Rattle.encoding.specs.Words.{kind_number};

// Each is its number.
#[derive(Clone, Copy, Debug, PartialEq, Eq)]
pub enum Kind {
    Begin = 0,
    Pass = 1,
    Arrival = 2,
    Take = 3,
    Close = 4,
    TakeMissing = 5,
    TakeDiscontinuity = 6,
    TakeStalled = 7,
}

impl Kind {
    // The kind of this number, if it is one's.
    pub fn of(n: u64) -> Option<Kind>
        ensures some { IfSome result (λ kind. n ≡ kind_number kind) }
        ensures none { result ≡ None → 7 < n }
    {
        match n {
            0 => Some(Kind::Begin),
            1 => Some(Kind::Pass),
            2 => Some(Kind::Arrival),
            3 => Some(Kind::Take),
            4 => Some(Kind::Close),
            5 => Some(Kind::TakeMissing),
            6 => Some(Kind::TakeDiscontinuity),
            7 => Some(Kind::TakeStalled),
            _ => None,
        }
    }

    pub fn number(self) -> u64
        ensures { result ≡ kind_number self }
    {
        self as u64
    }
}
