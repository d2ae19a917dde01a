// Why a call is refused: document 01's and 02's numbers, with the names of `enum muruapy_refusal` in include/muruapy.h.
#![tactic(auto)]

ghost use Rattle.std.specs.Prelude.{◌≡◌};
ghost use Rattle.refusal.specs.Number.{numbered, refusal_in};

#[derive(Clone, Copy, Debug, PartialEq, Eq)]
pub enum Refusal {
    // the bytes of a plan; from 14 on its value too; 16 to 18 of one link, then of the next
    PlanShort = 11,
    PlanVersion = 12,
    PlanLength = 13,
    PlanModules = 14,
    PlanLinks = 15,
    LinkEnds = 16,
    LinkOrder = 17,
    LinkReading = 18,
    // what the caller lends
    TreeBuffer = 20,
    TooFewWords = 21,
    PlanBuffer = 22,
    // a field
    Field = 31,
    Response = 32,
    CeilingPassed = 33,
    // a step
    NoModule = 41,
    NoDirectedLink = 42,
    Awake = 43,
    NothingToHandOver = 44,
    EmptyQueue = 45,
    // the bytes of a schedule
    ScheduleShort = 51,
    ScheduleVersion = 52,
    ScheduleLength = 53,
    StepKind = 54,
    // a frame
    FrameSize = 61,
    FrameHead = 62,
    Message = 63,
    FrameBuffer = 64,
    // a cue
    NoTree = 71,
    NoSender = 72,
    Cues = 73,
    // a preview
    PreviewBuffer = 75,
    // a store of named points
    Store = 76,
    NameWrong = 77,
    StoreFull = 78,
    // a path in the tree
    PathBuffer = 79,
}

impl Refusal {
    pub fn number(self) -> u32
        ensures { result ≡ numbered self }
    {
        self as u32
    }
}

// What a call answers as a number: the refusal's, or 0 where it is not refused.
pub fn refusal_in(answer: Result<(), Refusal>) -> u32
    ensures { result ≡ refusal_in answer }
{
    match answer {
        Ok(()) => 0,
        Err(refusal) => refusal.number(),
    }
}

// What a run answers: how many turns are done, and the refusal that ended it, if one did.
#[derive(Clone, Copy)]
pub struct Run<T> {
    pub done: T,
    pub ended: Result<(), Refusal>,
}
