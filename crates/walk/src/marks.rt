// Lent marks.
ghost use Rattle.std.specs.Prelude.{◌≡◌};
ghost use Rattle.walk.specs.Marks.{unmarked};

// Takes every mark away.
pub fn zero_marks(marks: &mut [u8])
    ensures { marks.new ≡ unmarked marks.old }
{
    marks.fill(0);
}
