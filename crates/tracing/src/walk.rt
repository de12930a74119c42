// One line over a room that holds records: from a half-side on, from neighbour to neighbour, until a hull side or until the start comes
// round. The room's m corners come first, its m neighbours behind them; a mark is the highest bit of a neighbour.
ghost use Rattle.std.specs.Prelude.{◌≡◌, ◌+◌, ◌*◌, ◌≤◌, ◌<◌, length, set};
ghost use Rattle.std.specs.Bool.{beq};
ghost use Rattle.trace.specs.Side.{◌⟶◌};
ghost use Rattle.neighbours.specs.Half.{after, corner_in};
ghost use Rattle.tracing.specs.Steps.{exit};
ghost use Rattle.tracing.specs.Tracing.{lower_of, rest_from, line_at};
ghost use Rattle.tracing.specs.Written.{below_in, side_number, side_by, Left};
ghost use Rattle.tracing.specs.Room.{cleared, marks_in, numbered, neighbour_in, halves_in, Meshed};

use neighbours::half::{Half, NONE, Station, after, before, corner};

// The lower half-side of a side, of which one half-side is g, and what lies across g is e.
pub fn lower_of(g: Half, e: u16) -> Half
    requires { g.0 < 32767 }
    ensures { (result.0 ≡ lower_of g.0 (numbered e)) × (result.0 ≤ g.0) }
{
    if e < g.0 { Half(e) } else { g }
}

// A half-side over which a line leaves a triangle, and the half-side after it there.
#[derive(Clone, Copy)]
pub struct Way {
    pub half: Half,
    pub next: Half,
}

// The number of the side between two stations: the lower one, then the higher one.
fn side_number(a: Station, b: Station) -> u32
    ensures { result ≡ side_number (a.0 ⟶ b.0) }
{
    u32::from(a.0.min(b.0)) * 65536 + u32::from(a.0.max(b.0))
}

// What lines are traced by: the heights, the level, and how many half-sides stand in the room. The room stands beside it, since the steps
// that mark sides change the room and nothing else.
#[derive(Clone, Copy)]
pub struct Tracer<'a> {
    pub z: &'a [i32],
    pub level: i32,
    pub m: usize,
}

impl<'a> Tracer<'a> {
    // Whether a station is below the level.
    fn is_below(&self, k: Station) -> bool
        requires { k.0 < length self.now.z.now }
        ensures { result ≡ below_in self.now.z.now self.now.level k.0 }
    {
        self.z[k.0 as usize] < self.level
    }

    // Whether two stations are on one side of the level.
    pub fn is_level(&self, i: Station, j: Station) -> bool
        requires { (i.0 < length self.now.z.now) × (j.0 < length self.now.z.now) }
        ensures { result ≡ beq (below_in self.now.z.now self.now.level i.0) (below_in self.now.z.now self.now.level j.0) }
    {
        self.is_below(i) == self.is_below(j)
    }

    // What lies across half-side h, as a number: NONE at the hull. The room has 16 bits for it, none being one of its numbers, and it is compared
    // with half-sides as it stands.
    pub fn across(&self, room: &[u16], h: Half) -> u16
        requires { (h.0 < self.now.m) × (2 * self.now.m ≤ length room.now) }
        ensures { (result ≡ neighbour_in self.now.m (cleared self.now.m self.now.m room.now) h.0) × (result < 32768) }
    {
        room[self.m + h.0 as usize] % 32768
    }

    // The half-side over which a line leaves the triangle that it has come into over half-side h.
    fn exit(&self, room: &[u16], h: Half) -> Way
        requires { Meshed self.now.m (length self.now.z.now) (cleared self.now.m self.now.m room.now) × (h.0 < self.now.m) }
        ensures { (result.half.0 ≡ exit (corner_in (cleared self.now.m self.now.m room.now)) (below_in self.now.z.now self.now.level) h.0)
            × (result.half.0 < self.now.m) × (result.next.0 ≡ after result.half.0) × (result.next.0 < self.now.m) }
    {
        let b = before(h);
        let a = after(h);
        if self.is_level(corner(room, b), corner(room, a)) {
            Way { half: b, next: h }
        } else {
            Way { half: a, next: b }
        }
    }

    // The mark of half-side h.
    fn mark(&self, room: &mut [u16], h: Half)
        requires { (h.0 < self.now.m) × (2 * self.now.m ≤ length room.old) }
        ensures { (cleared self.now.m self.now.m room.new ≡ cleared self.now.m self.now.m room.old)
            × (marks_in self.now.m room.new ≡ set (marks_in self.now.m room.old) h.0 1) }
    {
        let i = self.m + h.0 as usize;
        room[i] = room[i] % 32768 + 32768;
    }

    // The side of half-side g marked, where e lies across, and its number put in its place.
    fn visit(&self, room: &mut [u16], g: Way, e: u16, side: &mut u32)
        requires { (self.now.m ≤ 32766) × (2 * self.now.m ≤ length room.old) × (g.half.0 < self.now.m) × (g.next.0 ≡ after g.half.0) × (g.next.0 < self.now.m) }
        ensures { (cleared self.now.m self.now.m room.new ≡ cleared self.now.m self.now.m room.old)
            × (marks_in self.now.m room.new ≡ set (marks_in self.now.m room.old) (lower_of g.half.0 (numbered e)) 1)
            × (side.new ≡ side_by (corner_in (cleared self.now.m self.now.m room.old)) g.half.0) }
    {
        self.mark(room, lower_of(g.half, e));
        *side = side_number(corner(room, g.half), corner(room, g.next));
    }

    // The sides that follow the start, half-side s: marked, and written from place v on. The place after them.
    fn go_on(&self, room: &mut [u16], s: Half, sides: &mut [u32], v: usize) -> usize
        requires { Meshed self.now.m (length self.now.z.now) (cleared self.now.m self.now.m room.old) × (s.0 < self.now.m)
            × (v + length (rest_from (halves_in self.now.m room.old) (below_in self.now.z.now self.now.level) s.0 self.now.m s.0) ≤ length sides.old) }
        ensures { (cleared self.now.m self.now.m room.new ≡ cleared self.now.m self.now.m room.old)
            × Left (halves_in self.now.m room.old) (rest_from (halves_in self.now.m room.old) (below_in self.now.z.now self.now.level) s.0 self.now.m s.0)
            (marks_in self.now.m room.old) sides.old v (marks_in self.now.m room.new) sides.new result }
    {
        let start = s.0;
        let mut h = start;
        let mut k = v;
        for _ in 0..self.m {
            let g = self.exit(room, Half(h));
            let e = self.across(room, g.half);
            if e == start {
                return k;
            }
            self.visit(room, g, e, &mut sides[k]);
            k += 1;
            if e == NONE {
                return k;
            }
            h = e;
        }
        k
    }

    // The line that starts with half-side s: its sides marked, and written from place v on. The place after them.
    pub fn walk(&self, room: &mut [u16], s: Half, sides: &mut [u32], v: usize) -> usize
        requires { Meshed self.now.m (length self.now.z.now) (cleared self.now.m self.now.m room.old) × (s.0 < self.now.m)
            × (v + length (line_at (halves_in self.now.m room.old) (below_in self.now.z.now self.now.level) s.0) ≤ length sides.old) }
        ensures { (cleared self.now.m self.now.m room.new ≡ cleared self.now.m self.now.m room.old)
            × Left (halves_in self.now.m room.old) (line_at (halves_in self.now.m room.old) (below_in self.now.z.now self.now.level) s.0)
            (marks_in self.now.m room.old) sides.old v (marks_in self.now.m room.new) sides.new result }
    {
        let g = Way {
            half: s,
            next: after(s),
        };
        let e = self.across(room, s);
        self.visit(room, g, e, &mut sides[v]);
        self.go_on(room, s, sides, v + 1)
    }
}
