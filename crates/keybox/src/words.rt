// Words in and out of a box: give puts a word into IN, take answers a word of OUT.

ghost use Rattle.std.specs.Prelude.{◌≡◌, ◌<◌, OnOk};
ghost use Rattle.keybox.specs.Model.{place_fault, giving, taking};
ghost use Rattle.keybox.specs.Accesses.{gives, takes};
ghost use Rattle.keybox.specs.Device.{state, granted, done, word as answered, Does};

use crate::device::KeyBox;
use memory::Memory;
use scheme::fault::BoxFault;

impl<M: Memory> KeyBox<M> {
    // Refuses where the memory is too small or a place lies outside a zone of that many words.
    fn inside(&self, place: u32, size: u32) -> Result<(), BoxFault>
        ensures value { result ≡ granted (place_fault (state M.Memory self.now) size place) }
        ensures within { OnOk result (place < size) }
    {
        self.has_room()?;
        if place < size {
            Ok(())
        } else {
            Err(BoxFault::OutsideZone(place))
        }
    }

    pub fn give(&mut self, place: u32, word: u32) -> Result<(), BoxFault>
        ensures { Does M.Memory self.old self.new (gives place) (done result) (giving (state M.Memory self.old) place word) }
    {
        self.inside(place, self.profile.in_size())?;
        self.memory.put(place, word);
        Ok(())
    }

    pub fn take(&mut self, place: u32) -> Result<u32, BoxFault>
        ensures { Does M.Memory self.old self.new (takes place) (answered result) (taking (state M.Memory self.old) place) }
    {
        self.inside(place, self.profile.out_size())?;
        Ok(self.memory.get(self.profile.out_at() + place))
    }
}
