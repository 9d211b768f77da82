// The verdict on a reply. Whether it conflicts is looked at before the rule, and refusal 5 after both.
ghost use Rattle.std.specs.Prelude.{◌≡◌, true, ◌<◌};
ghost use Rattle.moment.specs.Intervals.{edges_within};
ghost use Rattle.rules.specs.Verdict.{judged, leaves, conflicts_after};
ghost use Rattle.rules.specs.Spans.{Span};

use crate::edges::{adopt, narrow, no_wider};
use crate::{Finding, Rule, Verdict};
use moment::Interval;
use moment::intervals::{both_in_range, share_a_moment};

// Rule im takes what the bracket leaves of the edges. Under rule mm nothing is taken of a reply that is wider than they are.
#[tactic(auto, unfolding(crate::specs::Verdict::judged, crate::specs::Verdict::judged_by, crate::specs::Rules::conflicting))]
pub fn judge(rule: Rule, bracket: Interval, span: i64, reply: Interval, edges: Interval) -> Verdict
    requires span { Span span }
    requires reply_value { edges_within reply ≡ true }
    requires edges_value { edges_within edges ≡ true }
    ensures { result ≡ judged rule bracket span reply edges }
{
    let (finding, edges) = match rule {
        _ if !share_a_moment(bracket, edges) => (Finding::Conflict, edges),
        Rule::Im => (Finding::Taken, narrow(bracket, edges)),
        Rule::Mm if no_wider(span, reply, edges) => (Finding::Taken, adopt(span, reply)),
        Rule::Mm => (Finding::Kept, edges),
    };
    Verdict { finding, edges }
}

// Refusal 5: whether the edges that would be taken leave the range.
#[tactic(auto, unfolding(crate::specs::Verdict::leaves))]
pub fn leaves_the_range(verdict: Verdict) -> bool
    ensures { result ≡ leaves verdict }
{
    verdict.finding == Finding::Taken && !both_in_range(verdict.edges)
}

// The conflict count after a reply: only a conflict counts.
pub fn conflicts_after(conflicts: u32, finding: Finding) -> u32
    requires { conflicts < 4294967295 }
    ensures { result ≡ conflicts_after conflicts finding }
{
    match finding {
        Finding::Conflict => conflicts + 1,
        Finding::Taken | Finding::Kept => conflicts,
    }
}
