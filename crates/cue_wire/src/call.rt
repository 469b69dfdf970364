ghost use Rattle.std.specs.Prelude.{◌≡◌, [], IfSome, IfNone};
ghost use Rattle.cue_wire.specs.Requests.{IsRequest, IsNoRequest};
ghost use Rattle.cue_wire.specs.Inner.Calls.{request_of};

use cue_replica::SiteQuestion;
use std::str;

/// What a frame's body asks of a site.
#[derive(Clone, Copy, Debug)]
pub enum Call<'b> {
    /// To accept a text.
    Text(&'b str),
    /// To accept state bytes.
    State(&'b [u8]),
    /// A question.
    Ask(SiteQuestion),
}

impl<'b> Call<'b> {
    /// The call that a body says, where it says one.
    pub fn of(body: &'b [u8]) -> Option<Call<'b>>
        ensures some { IfSome result (λ call. IsRequest body.now (request_of call)) }
        ensures none { IfNone result (IsNoRequest body.now) }
    {
        let (first, rest) = body.split_first()?;
        match *first {
            1 => Some(Call::Text(str::from_utf8(rest).ok()?)),
            2 => Some(Call::State(rest)),
            3 => question_alone(SiteQuestion::State, rest),
            4 => question_alone(SiteQuestion::Export, rest),
            5 => question_alone(SiteQuestion::Report, rest),
            6 => question_alone(SiteQuestion::Print, rest),
            _ => None,
        }
    }
}

/// A question behind which no more bytes come.
fn question_alone<'b>(question: SiteQuestion, rest: &[u8]) -> Option<Call<'b>>
    ensures some { IfSome result (λ call. (rest.now ≡ []) × (call ≡ Call.Ask question)) }
    ensures none { IfNone result (rest.now ≡ [] → ⊥) }
{
    if rest.is_empty() {
        Some(Call::Ask(question))
    } else {
        None
    }
}
