// All lines of a level over a room that holds records and the sides in order: first the open lines, then the closed ones, each kind by a
// pass over the half-sides in the order of sides.
ghost use Rattle.std.specs.Prelude.{◌≡◌, true, false, ◌++◌, ◌+◌, ◌*◌, ◌-◌, ◌≤◌, ◌<◌, ltb, eqb, length, get_or, set, drop};
ghost use Rattle.trace.specs.Lines.{passed, records as records_of};
ghost use Rattle.trace.specs.Mesh.{Sound};
ghost use Rattle.trace.specs.Side.{bit};
ghost use Rattle.trace.specs.Crossed.{is_crossed};
ghost use Rattle.neighbours.specs.Half.{after, corner_in, runs_by};
ghost use Rattle.neighbours.specs.Room.{order, threes, Holds};
ghost use Rattle.tracing.specs.Tracing.{line_at, starts_by, half_line, record_by, passed_by, scan_by};
ghost use Rattle.tracing.specs.Written.{below_in, sides_of, Left, Lined};
ghost use Rattle.tracing.specs.Room.{cleared, marks_in, half_at, halves_in, Meshed, Ready, lines_in};

use crate::walk::{Tracer, lower_of};
use neighbours::half::{Half, NONE, after, corner};

// How many lines there are, and how many vertices they have in all. `survey::answers::Drawn` has the same two counts, but nothing here knows of
// surveys.
#[derive(Clone, Copy)]
pub struct Traced {
    pub lines: usize,
    pub vertices: usize,
}

// Whether half-side h runs as its side does, from the lower station to the higher.
fn is_rising(room: &[u16], h: Half) -> bool
    requires { (h.0 < 32766) × (h.0 < length room.now) × (after h.0 < length room.now) }
    ensures { result ≡ ltb (corner_in room.now h.0) (corner_in room.now (after h.0)) }
{
    corner(room, h).0 < corner(room, after(h)).0
}

// 'A line record is one number: twice its count of vertices, plus 1 if closed.'
fn record_of(closed: bool, count: usize) -> u16
    requires { count ≤ 16383 }
    ensures { result ≡ 2 * count + bit closed }
{
    2 * count as u16 + u16::from(closed)
}

impl<'a> Tracer<'a> {
    // Whether half-side h is without a mark.
    fn is_free(&self, room: &[u16], h: Half) -> bool
        requires { (h.0 < self.now.m) × (2 * self.now.m ≤ length room.now) }
        ensures { result ≡ eqb (get_or (marks_in self.now.m room.now) h.0 0) 0 }
    {
        room[self.m + h.0 as usize] < 32768
    }

    // Whether the side of half-side h is crossed.
    fn is_crossed(&self, room: &[u16], h: Half) -> bool
        requires { Meshed self.now.m (length self.now.z.now) (cleared self.now.m self.now.m room.now) × (h.0 < self.now.m) }
        ensures { result ≡ is_crossed (below_in self.now.z.now self.now.level) (runs_by (corner_in (cleared self.now.m self.now.m room.now)) h.0) }
    {
        !self.is_level(corner(room, h), corner(room, after(h)))
    }

    // Whether half-side h starts an open line: nothing lies across and it has no mark, so that its number is NONE; and it is crossed.
    fn is_open(&self, room: &[u16], h: Half) -> bool
        requires { Meshed self.now.m (length self.now.z.now) (cleared self.now.m self.now.m room.now) × (h.0 < self.now.m) }
        ensures { result ≡ starts_by false (halves_in self.now.m room.now) (below_in self.now.z.now self.now.level) (marks_in self.now.m room.now) h.0 }
    {
        room[self.m + h.0 as usize] == NONE && self.is_crossed(room, h)
    }

    // Whether half-side h starts a closed line: it is crossed, its side has no mark, and it runs as its side does.
    fn is_closed(&self, room: &[u16], h: Half) -> bool
        requires { Meshed self.now.m (length self.now.z.now) (cleared self.now.m self.now.m room.now) × (h.0 < self.now.m) }
        ensures { result ≡ starts_by true (halves_in self.now.m room.now) (below_in self.now.z.now self.now.level) (marks_in self.now.m room.now) h.0 }
    {
        self.is_crossed(room, h)
            && self.is_free(room, lower_of(h, self.across(room, h)))
            && is_rising(room, h)
    }

    // Whether half-side h starts a line of the kind. The kind is a Bool, as in the definitions: it decides the record too, so a closure for the
    // test would be one argument more.
    fn is_start(&self, closed: bool, room: &[u16], h: Half) -> bool
        requires { Meshed self.now.m (length self.now.z.now) (cleared self.now.m self.now.m room.now) × (h.0 < self.now.m) }
        ensures { result ≡ starts_by closed (halves_in self.now.m room.now) (below_in self.now.z.now self.now.level) (marks_in self.now.m room.now) h.0 }
    {
        if closed {
            self.is_closed(room, h)
        } else {
            self.is_open(room, h)
        }
    }

    // The half-side of entry i.
    fn half_at(&self, room: &[u16], i: usize) -> Half
        requires { 2 * self.now.m + i < length room.now }
        ensures { result.0 ≡ half_at self.now.m (cleared self.now.m self.now.m room.now) i }
    {
        Half(room[2 * self.m + i])
    }

    // The line from half-side s, after the lines that are drawn: marked, its sides written, and its record. All lines that are drawn then.
    fn draw_line(
        &self,
        closed: bool,
        room: &mut [u16],
        s: Half,
        sides: &mut [u32],
        records: &mut [u16],
        drawn: Traced,
    ) -> Traced
        requires { Meshed self.now.m (length self.now.z.now) (cleared self.now.m self.now.m room.old) × (s.0 < self.now.m)
            × (drawn.vertices + length (line_at (halves_in self.now.m room.old) (below_in self.now.z.now self.now.level) s.0) ≤ length sides.old)
            × (length sides.old ≤ 16383) × (drawn.lines < length records.old) }
        ensures { (cleared self.now.m self.now.m room.new ≡ cleared self.now.m self.now.m room.old)
            × Left (halves_in self.now.m room.old) (line_at (halves_in self.now.m room.old) (below_in self.now.z.now self.now.level) s.0)
            (marks_in self.now.m room.old) sides.old drawn.vertices (marks_in self.now.m room.new) sides.new result.vertices
            × (records.new ≡ set records.old drawn.lines
            (record_by (half_line closed (line_at (halves_in self.now.m room.old) (below_in self.now.z.now self.now.level) s.0))))
            × (result.lines ≡ drawn.lines + 1) }
    {
        let vertices = self.walk(room, s, sides, drawn.vertices);
        records[drawn.lines] = record_of(closed, vertices - drawn.vertices);
        Traced {
            lines: drawn.lines + 1,
            vertices,
        }
    }

    // The lines of one kind, by a pass over all entries, after the lines that are drawn: their sides and their records. All lines that are
    // drawn then.
    fn draw_lines(
        &self,
        closed: bool,
        room: &mut [u16],
        count: usize,
        sides: &mut [u32],
        records: &mut [u16],
        drawn: Traced,
    ) -> Traced
        requires { Ready self.now.m (length self.now.z.now) count (cleared self.now.m self.now.m room.old) × (length sides.old ≤ 16383)
            × (drawn.vertices + length (passed_by (scan_by closed (halves_in self.now.m room.old) (below_in self.now.z.now self.now.level) (marks_in self.now.m room.old) 0 count))
            ≤ length sides.old)
            × (drawn.lines + length (scan_by closed (halves_in self.now.m room.old) (below_in self.now.z.now self.now.level) (marks_in self.now.m room.old) 0 count) ≤ length records.old) }
        ensures { (cleared self.now.m self.now.m room.new ≡ cleared self.now.m self.now.m room.old)
            × Lined (halves_in self.now.m room.old)
            (scan_by closed (halves_in self.now.m room.old) (below_in self.now.z.now self.now.level) (marks_in self.now.m room.old) 0 count)
            (marks_in self.now.m room.old) sides.old drawn.vertices records.old drawn.lines
            (marks_in self.now.m room.new) sides.new result.vertices records.new result.lines }
    {
        // A copy that nothing else can reach is held in registers while the room is written.
        let own = *self;
        let mut all = drawn;
        for i in 0..count {
            let s = own.half_at(room, i);
            if own.is_start(closed, room, s) {
                all = own.draw_line(closed, room, s, sides, records, all);
            }
        }
        all
    }
}

// All marks taken off.
fn clear(room: &mut [u16], m: usize)
    requires { 2 * m ≤ length room.old }
    ensures { room.new ≡ cleared m m room.old }
{
    for neighbour in &mut room[m..2 * m] {
        *neighbour %= 32768;
    }
}

// The lines of a level over t triangles, whose records and `count` sides in order stand in the room: their sides and their records. The
// room is as it was.
pub fn trace(
    z: &[i32],
    level: i32,
    room: &mut [u16],
    t: usize,
    count: usize,
    sides: &mut [u32],
    records: &mut [u16],
) -> Traced
    requires { Sound (threes t room.old) (length z.now) × Holds (threes t room.old) (length z.now) room.old
        × (count ≡ length (order (threes t room.old) (length z.now))) × (3 * t ≤ 32766) × (length z.now ≤ 32766)
        × (length sides.old ≤ 16383) × (length (passed (lines_in z.now level t room.old)) ≤ length sides.old)
        × (length (lines_in z.now level t room.old) ≤ length records.old) }
    ensures { (result.lines ≡ length (lines_in z.now level t room.old))
        × (result.vertices ≡ length (passed (lines_in z.now level t room.old)))
        × (sides.new ≡ sides_of (passed (lines_in z.now level t room.old)) ++ drop result.vertices sides.old)
        × (records.new ≡ records_of (lines_in z.now level t room.old) ++ drop result.lines records.old)
        × (room.new ≡ room.old) }
{
    let none = Traced {
        lines: 0,
        vertices: 0,
    };
    let tracer = Tracer { z, level, m: 3 * t };
    let open = tracer.draw_lines(false, room, count, sides, records, none);
    let all = tracer.draw_lines(true, room, count, sides, records, open);
    clear(room, 3 * t);
    all
}
