// The entries that cases are of.

// Each with its number in the record.
#[derive(Clone, Copy)]
pub(crate) enum Entry {
    ViewVertex = 0,
    Create = 1,
    CreateOnSingleSegment = 2,
    FromEntirePline = 3,
    ValidateForSource = 4,
    CutOrder = 5,
    Candidates = 6,
    Prune = 7,
    Stitch = 8,
    AreaPass = 9,
    SliceSpan = 10,
    FromSlicePoints = 11,
    FromNewStart = 12,
}

// How many there are, and their names, each at its number.
pub(crate) const ENTRIES: usize = 13;

pub(crate) static NAMES: [&str; ENTRIES] = [
    "mask_view_vertex",
    "mask_create",
    "mask_create_on_single_segment",
    "mask_from_entire_pline",
    "mask_validate_for_source",
    "mask_cut_order",
    "mask_candidates",
    "mask_prune",
    "mask_stitch",
    "mask_area_pass",
    "mask_slice_span",
    "mask_from_slice_points",
    "mask_from_new_start",
];

// The number is no entry's.
#[derive(Clone, Copy)]
pub(crate) struct Unknown;

impl TryFrom<usize> for Entry {
    type Error = Unknown;

    fn try_from(number: usize) -> Result<Entry, Unknown> {
        match number {
            0 => Ok(Entry::ViewVertex),
            1 => Ok(Entry::Create),
            2 => Ok(Entry::CreateOnSingleSegment),
            3 => Ok(Entry::FromEntirePline),
            4 => Ok(Entry::ValidateForSource),
            5 => Ok(Entry::CutOrder),
            6 => Ok(Entry::Candidates),
            7 => Ok(Entry::Prune),
            8 => Ok(Entry::Stitch),
            9 => Ok(Entry::AreaPass),
            10 => Ok(Entry::SliceSpan),
            11 => Ok(Entry::FromSlicePoints),
            12 => Ok(Entry::FromNewStart),
            _ => Err(Unknown),
        }
    }
}
