// Why a survey is not done: document 01, "Refusal numbers", and document 02, L10.
ghost use Rattle.std.specs.Prelude.{◌≡◌};
ghost use Rattle.survey.specs.Refusals.{number_of, carried_by};

#[derive(Clone, Copy, PartialEq, Eq)]
pub enum Refusal {
    // x, y, z lists differ in length, or there are too few or too many stations.
    Count,
    // A coordinate or height of this station is out of range, and of no lower one.
    Range { station: u32 },
    // This station stands where an earlier one does, and no lower one does so.
    SamePlace { station: u32 },
    // All stations stand on one line.
    OneLine,
    // A level, place, level list or style is out of range.
    Number,
    // A lent room is too short.
    Room,
    // This line of a text, or this station's tag, is not of the stated form.
    Form { at: u32 },
    // The tag of this line, or of this station, is used before.
    TagUsed { at: u32 },
    // This triangle of a mesh that is handed in is wrong, and no earlier one; or so many whole triangles the list has, where its length is
    // wrong or no triangle is.
    Mesh { triangle: u32 },
}

// The paper's number for the refusal.
pub fn number(r: Refusal) -> u32
    ensures { result ≡ number_of r }
{
    match r {
        Refusal::Count => 1,
        Refusal::Range { station: _ } => 2,
        Refusal::SamePlace { station: _ } => 3,
        Refusal::OneLine => 4,
        Refusal::Number => 5,
        Refusal::Room => 6,
        Refusal::Form { at: _ } => 7,
        Refusal::TagUsed { at: _ } => 8,
        Refusal::Mesh { triangle: _ } => 9,
    }
}

// What the refusal carries.
pub fn carried(r: Refusal) -> u32
    ensures { result ≡ carried_by r }
{
    match r {
        Refusal::Count => 0,
        Refusal::Range { station } => station,
        Refusal::SamePlace { station } => station,
        Refusal::OneLine => 0,
        Refusal::Number => 0,
        Refusal::Room => 0,
        Refusal::Form { at } => at,
        Refusal::TagUsed { at } => at,
        Refusal::Mesh { triangle } => triangle,
    }
}
