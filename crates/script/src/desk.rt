// The desk at which lines are worked off: the memory, until a profile is granted in the first line, and the box from then on.
// A line that is malformed, or has no box to ask, touches neither.

ghost use Rattle.std.specs.Prelude.{◌≡◌, Some};
ghost use Rattle.lines.specs.Commands.{request, ordered};
ghost use Rattle.lines.specs.declared.command.Command.TheVariants.{Set};
ghost use Rattle.lines.specs.Feeding.{line_of};
ghost use Rattle.script.specs.Sessions.{device_of, desk_of, waiting, obeys, serves, works, works_off};

use crate::fault::LineFault;
use crate::grant::LineGrant;
use keybox::call::Grant;
use keybox::device::KeyBox;
use lines::command::{Command, Order, Setting};
use lines::line::Line;
use lines::parse::parse;
use memory::{HeardMemory, Memory};
use scheme::fault::BoxFault;
use scheme::profile::Profile;

const UNIT: u32 = 1;

// The memory until a box is open, and then the box. They are two options and no enum: what a lent desk holds can be moved out only if a value is left in its place,
// as the `None` that `take` leaves, and an enum would need a third state for that moment.
#[derive(Drop)]
pub struct Desk<M: Memory> {
    memory: Option<M>,
    device: Option<KeyBox<M>>,
}

// Does on a box what it is told.
fn obey<M: HeardMemory>(device: &mut KeyBox<M>, order: Order) -> Result<LineGrant, BoxFault>
    ensures { record { answer = result; after = device_of M.Memory device.new } ≡ obeys M.HeardMemory.told (device_of M.Memory device.old) (ordered order) }
{
    match order {
        Order::Call(call) => Ok(LineGrant::Call(device.call(call)?)),
        Order::Hear => Ok(LineGrant::Heard(device.hear())),
    }
}

impl<M: HeardMemory + Drop> Desk<M> {
    pub fn new(memory: M) -> Desk<M>
        ensures { desk_of M.Memory result ≡ waiting (M.Memory.seen memory) }
    {
        Desk {
            memory: Some(memory),
            device: None,
        }
    }

    // Opens a box with a profile of the numbers given.
    fn open(&mut self, setting: Setting) -> Result<LineGrant, LineFault>
        ensures { record { answer = result; after = desk_of M.Memory self.new } ≡ works_off M.HeardMemory.told (desk_of M.Memory self.old) (Some (request (Set setting))) }
    {
        let profile = Profile::try_from(&setting)?;
        let memory = self.memory.take().ok_or(LineFault::Malformed)?;
        self.device = Some(KeyBox::open(profile, UNIT, memory));
        Ok(LineGrant::Call(Grant::Done))
    }

    fn serve(&mut self, order: Order) -> Result<LineGrant, LineFault>
        ensures { record { answer = result; after = desk_of M.Memory self.new } ≡ serves M.HeardMemory.told (desk_of M.Memory self.old) (ordered order) (desk_of M.Memory self.old).device }
    {
        let device = self.device.as_mut().ok_or(LineFault::NoProfile)?;
        Ok(obey(device, order)?)
    }

    // Works a line off.
    pub fn work(&mut self, line: &Line) -> Result<LineGrant, LineFault>
        ensures { record { answer = result; after = desk_of M.Memory self.new } ≡ works M.HeardMemory.told (desk_of M.Memory self.old) (line_of line.now) }
    {
        match parse(line.as_bytes(), line.number() == 1).ok_or(LineFault::Malformed)? {
            Command::Set(setting) => self.open(setting),
            Command::Order(order) => self.serve(order),
        }
    }
}
