// Why a line is refused.
// A fault of the profile or of the box nests in the line's, and what it tells comes up unchanged.

ghost use Rattle.std.specs.Prelude.{◌≡◌};
ghost use Rattle.script.specs.declared.fault.LineFault.TheVariants.{Profile as of_profile, Box as of_box};
ghost use Rattle.script.specs.Faults.{line_told};

use scheme::fault::{BoxFault, Fault, Layer, ProfileFault, Told};

// Malformed: the line has no form that a script has. NoProfile: no profile was granted in the first line.
#[derive(Clone, Copy, Debug, PartialEq, Eq)]
pub enum LineFault {
    Malformed,
    NoProfile,
    Profile(ProfileFault),
    Box(BoxFault),
}

// Neither `From` is derived: a derived one promises nothing of the fault that it makes, and contracts name it.
impl From<ProfileFault> for LineFault {
    ghost from_gives = { λ e r. r ≡ of_profile e };

    fn from(e: ProfileFault) -> LineFault {
        LineFault::Profile(e)
    }
}

impl From<BoxFault> for LineFault {
    ghost from_gives = { λ e r. r ≡ of_box e };

    fn from(e: BoxFault) -> LineFault {
        LineFault::Box(e)
    }
}

impl Fault for LineFault {
    ghost told = { line_told };

    fn told(&self) -> Told {
        match *self {
            LineFault::Malformed => Told::new(20, Layer::Line, 0),
            LineFault::NoProfile => Told::new(21, Layer::Line, 0),
            LineFault::Profile(f) => f.told(),
            LineFault::Box(f) => f.told(),
        }
    }
}
