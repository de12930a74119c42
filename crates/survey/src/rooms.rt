// The rooms that the jobs need for n stations: document 01, "Refusal numbers".
ghost use Rattle.std.specs.Prelude.{◌≡◌, ◌≤◌};
ghost use Rattle.survey.specs.Rooms.{triangle_room, slope_room, vertex_room, record_room, work_room, tag_room, is_tight};

pub fn triangle_room(n: usize) -> usize
    requires { (3 ≤ n) × (n ≤ 65535) }
    ensures { result ≡ triangle_room n }
{
    3 * (2 * n - 5)
}

pub fn slope_room(n: usize) -> usize
    requires { n ≤ 65535 }
    ensures { result ≡ slope_room n }
{
    5 * n
}

pub fn vertex_room(n: usize) -> usize
    requires { (3 ≤ n) × (n ≤ 65535) }
    ensures { result ≡ vertex_room n }
{
    3 * n - 6
}

pub fn record_room(n: usize) -> usize
    requires { (3 ≤ n) × (n ≤ 65535) }
    ensures { result ≡ record_room n }
{
    (3 * n - 6) / 2
}

pub fn work_room(n: usize) -> usize
    requires { n ≤ 65535 }
    ensures { result ≡ work_room n }
{
    16 * n
}

pub fn tag_room(n: usize) -> usize
    requires { n ≤ 65535 }
    ensures { result ≡ tag_room n }
{
    8 * n
}

// Whether the slope room or the work room is too short for n stations.
pub fn is_tight(n: usize, slopes: usize, work: usize) -> bool
    requires { n ≤ 65535 }
    ensures { result ≡ is_tight n slopes work }
{
    slopes < slope_room(n) || work < work_room(n)
}
