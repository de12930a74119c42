// The exports of the door of a mesh that is handed in.
// The style is a number, as C hands it over; one that there is not is refusal 5.
ghost use Rattle.std.specs.Prelude.{◌≡◌, length};
ghost use Rattle.survey.specs.Answers.{checked_gives, drawn_gives, height_gives};
ghost use Rattle.whole.specs.Place.{place};
ghost use Rattle.survey.specs.Survey.{survey};
ghost use Rattle.thawpebble.specs.Door.{number, carried, vertices_after, own_after, between_after};
ghost use Rattle.height.specs.Job.{slopes_after, work_after};
ghost use Rattle.lines.specs.Job.{lengths, x_in, y_in, records_in, slopes_in, work_in as lines_work_in};
ghost use Rattle.woven.specs.Accepted.{supplied_in, checked_over};
ghost use Rattle.height_over.specs.Job.{heighted_on};
ghost use Rattle.lines_over.specs.Job.{drawn_on};

// Refusals 1 to 4 of a survey and 9 of a mesh of it that is handed in: the number, and in `at` what it carries.
#[unsafe(no_mangle)]
pub extern "C" fn thawpebble_check_mesh(
    x: &[u32],
    y: &[u32],
    z: &[i32],
    triangles: &[u16],
    at: &mut u32,
) -> u32
    ensures { let a = checked_over (survey x.now y.now z.now) triangles.now in
        (result ≡ number (checked_gives a)) × (at.new ≡ carried (checked_gives a)) }
{
    thawpebble::over::thawpebble_check_mesh(x, y, z, triangles, at)
}

// The lines job over a mesh that is handed in. `at` and `n` hold what they hold after the lines job.
#[unsafe(no_mangle)]
pub extern "C" fn thawpebble_lines_over(
    x: &[u32],
    y: &[u32],
    z: &[i32],
    triangles: &[u16],
    level: i32,
    style: u32,
    vx: &mut [u32],
    vy: &mut [u32],
    records: &mut [u16],
    slopes: &mut [i32],
    work: &mut [u16],
    at: &mut u32,
    n: &mut u32,
) -> u32
    ensures { let s = survey x.now y.now z.now in
        let ts = supplied_in triangles.now in
        let a = drawn_on s triangles.now level style (lengths (length vx.old) (length vy.old) (length records.old)
        (length slopes.old) (length work.old)) in
        (result ≡ number (drawn_gives a))
        × (at.new ≡ carried (drawn_gives a))
        × (n.new ≡ vertices_after a n.old)
        × (vx.new ≡ x_in a s ts level style vx.old)
        × (vy.new ≡ y_in a s ts level style vy.old)
        × (records.new ≡ records_in a s ts level records.old)
        × (slopes.new ≡ slopes_in a s slopes.old)
        × (work.new ≡ lines_work_in a s work.old) }
{
    thawpebble::over::thawpebble_lines_over(
        x, y, z, triangles, level, style, vx, vy, records, slopes, work, at, n,
    )
}

// The height job over a mesh that is handed in. `at`, `own` and `between` hold what they hold after the height job.
#[unsafe(no_mangle)]
pub extern "C" fn thawpebble_height_over(
    x: &[u32],
    y: &[u32],
    z: &[i32],
    triangles: &[u16],
    px: u32,
    py: u32,
    slopes: &mut [i32],
    work: &mut [u16],
    at: &mut u32,
    own: &mut i32,
    between: &mut f64,
) -> u32
    ensures { let s = survey x.now y.now z.now in
        let a = heighted_on s triangles.now (place px py) (length slopes.old) (length work.old) in
        (result ≡ number (height_gives a))
        × (at.new ≡ carried (height_gives a))
        × (own.new ≡ own_after a own.old)
        × (between.new ≡ between_after a between.old)
        × (slopes.new ≡ slopes_after a s slopes.old)
        × (work.new ≡ work_after a s work.old) }
{
    thawpebble::over::thawpebble_height_over(
        x, y, z, triangles, px, py, slopes, work, at, own, between,
    )
}
