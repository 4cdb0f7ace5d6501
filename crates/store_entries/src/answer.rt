// What the entries answer, by value: a handle, or only that it is done.
ghost use Rattle.std.specs.Prelude.{◌≡◌};
ghost use Rattle.store_entries.specs.Answers.{handle_refused, handle_from, done_refused, done_from};

use basis::refuse::Refusal;

#[repr(C)]
#[derive(Clone, Copy)]
pub struct HandleAnswer {
    pub refusal: u32,
    pub handle: usize,
}

#[repr(C)]
#[derive(Clone, Copy)]
pub struct DoneAnswer {
    pub refusal: u32,
}

pub(crate) fn handle_refused(number: u32) -> HandleAnswer
    ensures { result ≡ handle_refused number }
{
    HandleAnswer {
        refusal: number,
        handle: 0,
    }
}

// The handle given, or number 20.
pub(crate) fn handle_from(put: Option<usize>) -> HandleAnswer
    ensures { result ≡ handle_from put }
{
    match put {
        Some(handle) => HandleAnswer { refusal: 0, handle },
        None => handle_refused(Refusal::Full.number()),
    }
}

pub(crate) fn done_refused(number: u32) -> DoneAnswer
    ensures { result ≡ done_refused number }
{
    DoneAnswer { refusal: number }
}

// Done, or number 21 where no slice had the handle.
pub(crate) fn done_from(found: bool) -> DoneAnswer
    ensures { result ≡ done_from found }
{
    if found {
        DoneAnswer { refusal: 0 }
    } else {
        done_refused(Refusal::Handle.number())
    }
}
