#![tactic(auto, unfolding(crate::specs::Answers::span_told))]
// What the span's entry answers: a flat struct, by value, as the C interface has it. On a refusal all but its number is 0.
ghost use Rattle.std.specs.Prelude.{◌≡◌};
ghost use Rattle.view_start_entries.specs.Answers.{span_refused, span_told};

use view_span::span::Span;

#[repr(C)]
#[derive(Clone, Copy)]
pub struct SpanAnswer {
    pub refusal: u32,
    pub moved: u32,
    pub start_index: usize,
    pub traverse_count: usize,
}

pub(crate) fn span_refused(number: u32) -> SpanAnswer
    ensures { result ≡ span_refused number }
{
    SpanAnswer {
        refusal: number,
        moved: 0,
        start_index: 0,
        traverse_count: 0,
    }
}

pub(crate) fn span_told(s: Span) -> SpanAnswer
    ensures { result ≡ span_told s }
{
    SpanAnswer {
        refusal: 0,
        moved: u32::from(s.moved),
        start_index: s.start_index,
        traverse_count: s.traverse_count,
    }
}
