// What was read so far: the line that is being read, the vertices of the outline that is being read, and the report on the outlines before it.
ghost use Rattle.straight_entries.specs.Running.{Reported};

use crate::print;
use straight_entries::answer::ReportAnswer;
use straight_entries::running;
use text::lines;
use text::lines::{Line, Stage};

#[derive(Clone, Copy)]
pub(crate) struct State {
    line: Line,
    number: u64,
    pub(crate) bad: bool,
    vertices: usize,
    pub(crate) so_far: ReportAnswer,
    ghost reported: { Reported so_far },
}

const NOTHING: Line = Line {
    stage: Stage::Start,
    negative: false,
    size: 0,
    first_negative: false,
    first_size: 0,
};

// The vertices at the front of the list.
fn front(points: &[i64], n: usize) -> &[i64] {
    if n > points.len() / 2 {
        return &points[..0];
    }
    &points[..2 * n]
}

// A vertex more, where there is room. There is room for one more than an outline may have.
fn store(points: &mut [i64], n: usize, x: i64, y: i64) -> usize {
    if n >= points.len() / 2 {
        return n;
    }
    points[2 * n] = x;
    points[2 * n + 1] = y;
    n + 1
}

impl State {
    pub(crate) fn begin() -> State {
        State {
            line: NOTHING,
            number: 1,
            bad: false,
            vertices: 0,
            so_far: running::none(),
        }
    }

    // A line that is a pair.
    fn vertex_read(&mut self, points: &mut [i64]) {
        let l = self.line;
        let x = lines::coordinate(l.first_negative, l.first_size);
        let y = lines::coordinate(l.negative, l.size);
        self.vertices = store(points, self.vertices, x, y);
    }

    // An empty line: the outline is read.
    fn outline_read(&mut self, points: &[i64]) {
        if self.vertices != 0 {
            let outline = front(points, self.vertices);
            self.so_far = running::next(self.so_far, outline, self.vertices);
        }
        self.vertices = 0;
    }

    // A line's end.
    fn line_read(&mut self, rt: &impl Eprint, points: &mut [i64]) {
        if lines::is_empty(self.line) {
            self.outline_read(points);
        } else if lines::is_pair(self.line) {
            self.vertex_read(points);
        } else {
            print::no_pair(rt, self.number);
            self.bad = true;
        }
        self.line = NOTHING;
        self.number = self.number.wrapping_add(1);
    }

    // One byte more; 10 ends a line.
    pub(crate) fn take(&mut self, rt: &impl Eprint, points: &mut [i64], c: u8) {
        if c == b'\n' {
            self.line_read(rt, points);
        } else {
            self.line = lines::take(self.line, c);
        }
    }

    // The end of the text: of its last line, where that has no end, and of its last outline.
    pub(crate) fn finish(&mut self, rt: &impl Eprint, points: &mut [i64]) {
        if !lines::is_empty(self.line) {
            self.line_read(rt, points);
        }
        self.outline_read(points);
    }
}
