// The calls, by value: each takes a keeper and hands it back with its answer. The causes of a refusal are tried in document 01's order.
// Each is a call of a keeper that was tested, so that who makes one call after the other on a keeper of its own need not test it before each.
ghost use Rattle.std.specs.Prelude.{◌≡◌};
ghost use Rattle.command.specs.declared.Command.TheVariants as C;
ghost use Rattle.keeper.specs.State.{fresh};
ghost use Rattle.keeper.specs.Apply.{apply};

use crate::refusals::{drop_refusal, flight_refusal, request_refusal, wait_refusal};
use crate::started::MOST_TICKS;
use crate::steps::{
    asked_of, begun_with, ended_with, passed_to, refused, replied_with, with_flight,
};
use crate::tested::Tested;
use crate::windows::window_answer;
use crate::{Answer, Keeper, Outcome};
use bits::count_of;
use calendar::Date;
use command::Command;
use command::limits::{start_within, ticks_within};
use moment::Interval;
use refusal::Refusal;
use rules::Rule;
use rules::edges::{bracket_of, centre_of, error_of, outward_span, told_of, widen};
use rules::judge::{judge, leaves_the_range};

impl Keeper {
    // A fresh keeper isn't started, its rule is im, nothing waits and every number is 0.
    pub fn fresh() -> Keeper
        ensures { result ≡ fresh }
    {
        Keeper {
            started: false,
            board: 0,
            rule: Rule::Im,
            claim: 0,
            edges: Interval { lower: 0, upper: 0 },
            ticks: 0,
            requests: 0,
            conflicts: 0,
            waiting: 0,
            tags: [0u32; 16],
            sent_at: [0u64; 16],
            out: [0u32; 16],
            back: [0u32; 16],
        }
    }

    // The pass of a keeper that is handed in, which is tested first.
    pub fn pass_tested(self, ticks: u32) -> Outcome
        ensures { result ≡ apply self (C.Pass ticks) }
    {
        let keeper = self;
        let started = keeper.counts_as_started();
        Tested { keeper, started }.pass(ticks)
    }
}

impl Tested {
    // A keeper that was handed in and does not count as started may be started.
    pub(crate) fn start(self, board: u8, rule: Rule, claim: u16, edges: Interval) -> Outcome
        ensures { result ≡ apply self.keeper (C.Start board rule claim edges) }
    {
        let Tested { keeper, started } = self;
        if !start_within(board as u64, claim as u64, edges) {
            return refused(keeper, Refusal::OutsideLimits);
        }
        if started {
            return refused(keeper, Refusal::OutOfTurn);
        }
        Outcome {
            answer: Answer::Started(board),
            keeper: begun_with(board, rule, claim, edges),
        }
    }

    // Refusal 5 is for an edge that would leave the range, and for ticks that would pass their most.
    pub(crate) fn pass(self, ticks: u32) -> Outcome
        ensures { result ≡ apply self.keeper (C.Pass ticks) }
    {
        let Tested { keeper, started } = self;
        if !ticks_within(ticks as u64) {
            return refused(keeper, Refusal::OutsideLimits);
        }
        if !started {
            return refused(keeper, Refusal::OutOfTurn);
        }
        let Some(edges) = widen(keeper.claim, ticks, keeper.edges) else {
            return refused(keeper, Refusal::LeavesRange);
        };
        let total = keeper.ticks + (ticks as u64);
        if MOST_TICKS < total {
            return refused(keeper, Refusal::LeavesRange);
        }
        Outcome {
            answer: Answer::At(total, edges),
            keeper: passed_to(keeper, edges, total),
        }
    }

    // The tag is the number of requests sent so far, counting this one, so no two requests share a tag.
    pub(crate) fn request(self, peer: u8) -> Outcome
        ensures { result ≡ apply self.keeper (C.Request peer) }
    {
        let keeper = self.keeper;
        if let Err(refusal) = request_refusal(self, peer) {
            return refused(keeper, refusal);
        }
        let tag = keeper.requests + 1;
        Outcome {
            answer: Answer::Sent(peer, tag),
            keeper: asked_of(keeper, peer),
        }
    }

    // A reply without its request, or with another tag, is refused before its edges are held against the keeper's.
    pub(crate) fn reply(self, peer: u8, tag: u32, edges: Interval) -> Outcome
        ensures { result ≡ apply self.keeper (C.Reply peer tag edges) }
    {
        let keeper = self.keeper;
        if let Err(refusal) = wait_refusal(self, peer, tag, edges) {
            return refused(keeper, refusal);
        }
        let sent_at = keeper.sent_at;
        let w = (keeper.ticks - sent_at[peer as usize]) as u32;
        let out = keeper.out;
        let back = keeper.back;
        let bracket = bracket_of(
            keeper.claim,
            w,
            out[peer as usize],
            back[peer as usize],
            edges,
        );
        let span = outward_span(keeper.claim, w);
        let rule = keeper.rule;
        let verdict = judge(rule, bracket, span, edges, keeper.edges);
        if leaves_the_range(verdict) {
            return refused(keeper, Refusal::LeavesRange);
        }
        replied_with(keeper, peer, verdict)
    }

    // Gives a request up: a late reply to it finds no request, or one with another tag.
    pub(crate) fn drop(self, peer: u8) -> Outcome
        ensures { result ≡ apply self.keeper (C.Drop peer) }
    {
        let keeper = self.keeper;
        if let Err(refusal) = drop_refusal(self, peer) {
            return refused(keeper, refusal);
        }
        Outcome {
            answer: Answer::Dropped(peer),
            keeper: ended_with(keeper, peer, keeper.edges, keeper.conflicts),
        }
    }

    // Nothing changes. The edges of a keeper that counts as started are in the range, so those that are told, and their sum, fit.
    pub(crate) fn read(self) -> Outcome
        ensures { result ≡ apply self.keeper C.Read }
    {
        let Tested { keeper, started } = self;
        if !started {
            return refused(keeper, Refusal::OutOfTurn);
        }
        let edges = keeper.edges;
        Outcome {
            answer: Answer::Time {
                edges: told_of(keeper.claim, edges),
                centre: centre_of(keeper.claim, edges),
                error: error_of(keeper.claim, edges),
                conflicts: keeper.conflicts,
                waiting: count_of(keeper.waiting),
            },
            keeper,
        }
    }

    // Nothing changes: the waiting peers and their tags are read from the keeper that is handed back.
    pub(crate) fn waiting(self) -> Outcome
        ensures { result ≡ apply self.keeper C.Waiting }
    {
        let Tested { keeper, started } = self;
        if !started {
            return refused(keeper, Refusal::OutOfTurn);
        }
        Outcome {
            answer: Answer::Waiting,
            keeper,
        }
    }

    // Nothing changes, whatever is answered.
    pub(crate) fn window(self, slot: u8, start: Date, end: Date) -> Outcome
        ensures { result ≡ apply self.keeper (C.Window slot start end) }
    {
        let Tested { keeper, started } = self;
        Outcome {
            answer: window_answer(started, keeper.claim, keeper.edges, slot, start, end),
            keeper,
        }
    }

    // Refused while the peer has a request waiting: the bracket of its reply goes by the times that were set when the request was sent.
    pub(crate) fn flight(self, peer: u8, out: u32, back: u32) -> Outcome
        ensures { result ≡ apply self.keeper (C.Flight peer out back) }
    {
        let keeper = self.keeper;
        if let Err(refusal) = flight_refusal(self, peer, out, back) {
            return refused(keeper, refusal);
        }
        Outcome {
            answer: Answer::Flight(peer),
            keeper: with_flight(keeper, peer, out, back),
        }
    }
}

// A command is the call of its name.
pub fn apply_command(tested: Tested, command: Command) -> Outcome
    ensures { result ≡ apply tested.keeper command }
{
    match command {
        Command::Start {
            board,
            rule,
            claim,
            edges,
        } => tested.start(board, rule, claim, edges),
        Command::Pass { ticks } => tested.pass(ticks),
        Command::Request { peer } => tested.request(peer),
        Command::Reply { peer, tag, edges } => tested.reply(peer, tag, edges),
        Command::Drop { peer } => tested.drop(peer),
        Command::Read => tested.read(),
        Command::Waiting => tested.waiting(),
        Command::Window { slot, start, end } => tested.window(slot, start, end),
        Command::Flight { peer, out, back } => tested.flight(peer, out, back),
    }
}

// The same of a keeper that is handed in, which is tested first.
pub fn apply_tested(keeper: Keeper, command: Command) -> Outcome
    ensures { result ≡ apply keeper command }
{
    apply_command(Tested::of(keeper), command)
}
