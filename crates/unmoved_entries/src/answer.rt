// What `mask_unmoved` answers: a flat struct, by value, with its flag beside the number, as the C interface has it.
ghost use Rattle.std.specs.Prelude.{◌≡◌};
ghost use Rattle.unmoved_entries.specs.UnmovedEntry.{unmoved_refused, unmoved_told};

#[repr(C)]
#[derive(Clone, Copy)]
pub struct UnmovedAnswer {
    pub refusal: u32,
    pub unmoved: u32,
    pub first: usize,
}

pub(crate) fn unmoved_refused(number: u32) -> UnmovedAnswer
    ensures { result ≡ unmoved_refused number }
{
    UnmovedAnswer {
        refusal: number,
        unmoved: 0,
        first: 0,
    }
}

// The lowest number of a vertex that differs, or none where the view is unmoved.
pub(crate) fn unmoved_told(first: Option<usize>) -> UnmovedAnswer
    ensures { result ≡ unmoved_told first }
{
    match first {
        None => UnmovedAnswer {
            refusal: 0,
            unmoved: 1,
            first: 0,
        },
        Some(first) => UnmovedAnswer {
            refusal: 0,
            unmoved: 0,
            first,
        },
    }
}
