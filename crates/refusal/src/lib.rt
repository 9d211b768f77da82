// Why a line or a call is refused. Each cause has one number, which a refused line and the calls from C tell.
#![tactic(auto)]

ghost use Rattle.std.specs.Prelude.{◌≡◌};
ghost use Rattle.refusal.specs.Refusal.{number};

#[derive(Clone, Copy, Debug, PartialEq, Eq)]
pub enum Refusal {
    // no command's shape, or too long
    NoShape,
    // a numeral outside its range, or a first edge above the second
    OutsideLimits,
    // a start after a start, or another command before one
    OutOfTurn,
    // the peer is the board itself
    OwnBoard,
    // an edge would leave the range, or the ticks pass their most
    LeavesRange,
    // the peer has a request waiting
    PeerWaits,
    // the peer has none waiting, or one with another tag
    NoRequest,
    // the reply comes too many ticks after its request
    TooLate,
    // every tag was given
    TagsUsedUp,
    // the output is too short for every line
    NoRoom,
    // a date that doesn't exist
    NoDate,
    // a window that doesn't end after it starts
    EmptyWindow,
}

impl Refusal {
    pub fn number(self) -> u8
        ensures { result ≡ number self }
    {
        match self {
            Refusal::NoShape => 1,
            Refusal::OutsideLimits => 2,
            Refusal::OutOfTurn => 3,
            Refusal::OwnBoard => 4,
            Refusal::LeavesRange => 5,
            Refusal::PeerWaits => 6,
            Refusal::NoRequest => 7,
            Refusal::TooLate => 8,
            Refusal::TagsUsedUp => 9,
            Refusal::NoRoom => 10,
            Refusal::NoDate => 11,
            Refusal::EmptyWindow => 12,
        }
    }
}
