// Why a setting or a call is refused.
// Each type of fault has one table of what its faults tell. A fault that nests in another tells the same there.

ghost use Rattle.std.specs.Prelude.{◌≡◌};
ghost use Rattle.scheme.specs.declared.fault.BoxFault.TheVariants.{Input as nested};
ghost use Rattle.scheme.specs.Faults.{told, profile_told, input_told, box_told};

// The part that refuses.
#[derive(Clone, Copy, Debug, PartialEq, Eq)]
pub enum Layer {
    Profile,
    Input,
    Box,
    Line,
}

// What a refusal tells. The place is that of the first word that offends. Where none does it is 0 and no `None`, as every refusal is told with a place.
#[derive(Clone, Copy, Debug, PartialEq, Eq)]
pub struct Told {
    pub number: u32,
    pub layer: Layer,
    pub place: u32,
}

impl Told {
    pub fn new(number: u32, layer: Layer, place: u32) -> Told
        ensures { result ≡ told number layer place }
    {
        Told {
            number,
            layer,
            place,
        }
    }
}

// A reason to refuse.
pub trait Fault {
    ghost use Rattle.scheme.specs.declared.fault.Told.{Told};

    ghost told: { Self → Told };

    fn told(&self) -> Told
        ensures { result ≡ told self.now };

    final fn number(&self) -> u32
        ensures { result ≡ (told self.now).number }
    {
        self.told().number
    }

    final fn layer(&self) -> Layer
        ensures { result ≡ (told self.now).layer }
    {
        self.told().layer
    }

    final fn place(&self) -> u32
        ensures { result ≡ (told self.now).place }
    {
        self.told().place
    }
}

// A number of a profile lies outside its range.
#[derive(Clone, Copy, Debug, PartialEq, Eq)]
pub enum ProfileFault {
    OutOfRange,
}

// What is wrong with the words of IN, with the place of the first word that offends.
#[derive(Clone, Copy, Debug, PartialEq, Eq)]
pub enum InputFault {
    PositionRange(u32),
    PositionTwice(u32),
    InverseTail(u32),
    NotInverse(u32),
    ErrorRange(u32),
    ErrorTwice(u32),
    PublicTail(u32),
}

#[derive(Clone, Copy, Debug, PartialEq, Eq)]
pub enum BoxFault {
    MemorySmall,
    OutsideZone(u32),
    SlipOut,
    Input(InputFault),
}

// Not derived: a derived `From` promises nothing of the fault that it makes, and contracts of calls name it.
impl From<InputFault> for BoxFault {
    ghost from_gives = { λ e r. r ≡ nested e };

    fn from(e: InputFault) -> BoxFault {
        BoxFault::Input(e)
    }
}

impl Fault for ProfileFault {
    ghost told = { profile_told };

    fn told(&self) -> Told {
        match self {
            ProfileFault::OutOfRange => Told::new(1, Layer::Profile, 0),
        }
    }
}

impl Fault for InputFault {
    ghost told = { input_told };

    fn told(&self) -> Told {
        match *self {
            InputFault::PositionRange(p) => Told::new(6, Layer::Input, p),
            InputFault::PositionTwice(p) => Told::new(7, Layer::Input, p),
            InputFault::InverseTail(p) => Told::new(8, Layer::Input, p),
            InputFault::NotInverse(p) => Told::new(9, Layer::Input, p),
            InputFault::ErrorRange(p) => Told::new(10, Layer::Input, p),
            InputFault::ErrorTwice(p) => Told::new(11, Layer::Input, p),
            InputFault::PublicTail(p) => Told::new(12, Layer::Input, p),
        }
    }
}

impl Fault for BoxFault {
    ghost told = { box_told };

    fn told(&self) -> Told {
        match *self {
            BoxFault::MemorySmall => Told::new(2, Layer::Box, 0),
            BoxFault::OutsideZone(p) => Told::new(3, Layer::Box, p),
            BoxFault::SlipOut => Told::new(4, Layer::Box, 0),
            BoxFault::Input(f) => f.told(),
        }
    }
}
