// "Numbered refusals": why an input or a text is refused, and the place that is told.
ghost use Rattle.std.specs.Prelude.{◌≡◌};
ghost use Rattle.rules.specs.Verdict.{number_of};

// Why; each reason has its number in document 01.
#[derive(Clone, Copy, Debug, PartialEq, Eq)]
pub enum Reason {
    ListLengths,
    TableCount,
    TableOver,
    MethodCount,
    MethodOver,
    EdgeOutside,
    EdgeItself,
    EdgeDivisor,
    EdgeRepeated,
    Unconnected,
    CrewRange,
    TurnWorker,
    MemoRows,
    SkipCells,
    LineFields,
    LineNumber,
    LineOrder,
    TextEnd,
    LineExcess,
}

// "All return the number, the place and zeros": a refusal is a reason, which has the number, and a place.
#[derive(Clone, Copy, Debug, PartialEq, Eq)]
pub struct Refusal {
    pub reason: Reason,
    pub place: u64,
}

impl Reason {
    // 01's number. No `From`: `reason.number()` says what the number is, `u64::from(reason)` does not.
    pub fn number(self) -> u64
        ensures { result ≡ number_of self }
    {
        match self {
            Reason::ListLengths => 1,
            Reason::TableCount => 2,
            Reason::TableOver => 3,
            Reason::MethodCount => 4,
            Reason::MethodOver => 5,
            Reason::EdgeOutside => 6,
            Reason::EdgeItself => 7,
            Reason::EdgeDivisor => 8,
            Reason::EdgeRepeated => 9,
            Reason::Unconnected => 10,
            Reason::CrewRange => 11,
            Reason::TurnWorker => 12,
            Reason::MemoRows => 13,
            Reason::SkipCells => 14,
            Reason::LineFields => 21,
            Reason::LineNumber => 22,
            Reason::LineOrder => 23,
            Reason::TextEnd => 24,
            Reason::LineExcess => 25,
        }
    }

    // The refusal for this reason of the record, turn or line at `place`; 0 where it is of none.
    pub fn at(self, place: u64) -> Refusal
        ensures { result ≡ record { reason = self; place = place } }
    {
        Refusal {
            reason: self,
            place,
        }
    }
}
