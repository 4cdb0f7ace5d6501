// Document 01, "Sizes": the least and the most of what is counted.

// Vertices of an outline.
pub const LEAST_VERTICES: usize = 2;

pub const MOST_VERTICES: usize = 1024;

// Basic intersections, and joined overlaps.
pub const MOST_HITS: usize = 512;

pub const MOST_LAPS: usize = 128;

// Candidates of one outline. As many cuts can there be: one of each intersection, two of each overlap.
pub const MOST_CANDIDATES: usize = 768;

// Slices in a stitch, loops in an area pass.
pub const MOST_SLICES: usize = 1792;
