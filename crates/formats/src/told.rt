// How a text tells a height: document 01, "Text".
ghost use Rattle.std.specs.Prelude.{◌≡◌};
ghost use Rattle.whole.specs.Range.{Within};
ghost use Rattle.survey.specs.Limits.{most_height};
ghost use Rattle.formats.specs.Lines.{told};

// 32,768 above itself.
pub fn told_as(height: i32) -> u64
    requires { Within most_height height }
    ensures { result ≡ told height }
{
    (height + 32768) as u64
}
