// A box over any memory. It holds no secret itself: positions, rows and syndromes lie in the zones of its memory.
// Each call says its whole effect in one clause: its answer, the box that it leaves, and the accesses that it made.

ghost use Rattle.std.specs.Prelude.{◌≡◌, [], ◌∷◌, length, OnOk};
ghost use Rattle.memory.specs.Access.{accessed};
ghost use Rattle.scheme.specs.declared.fault.BoxFault.TheVariants.{MemorySmall, SlipOut};
ghost use Rattle.keybox.specs.Model.{first, when, small, opened};
ghost use Rattle.keybox.specs.Accesses.{open_accesses};
ghost use Rattle.keybox.specs.Device.{state, granted, Roomy};

use memory::{HeardMemory, Memory};
use rows::fill::zero;
use scheme::fault::BoxFault;
use scheme::profile::Profile;

// unit: the box's number. loaded: whether a key is loaded. out: whether a slip is out, that is, an unsealed row may lie in OUT.
// They are flags and no options, since what they tell of lies in the memory.
#[derive(Drop)]
pub struct KeyBox<M: Memory> {
    pub(crate) profile: Profile,
    pub(crate) unit: u32,
    pub(crate) loaded: bool,
    pub(crate) out: bool,
    pub(crate) memory: M,
}

impl<M: Memory> KeyBox<M> {
    // Makes a box. Where the memory has too few words for the zones nothing is accessed, and every call will be refused.
    pub fn open(profile: Profile, unit: u32, mut memory: M) -> KeyBox<M>
        ensures state { state M.Memory result ≡ opened profile unit (M.Memory.seen memory).words }
        ensures seen { M.Memory.seen result.memory ≡ accessed (M.Memory.seen memory) (open_accesses profile (length (M.Memory.seen memory).words)) (state M.Memory result).words }
    {
        let n = profile.size();
        if memory.size() >= n {
            zero(&mut memory, 0, n);
        }
        KeyBox {
            profile,
            unit,
            loaded: false,
            out: false,
            memory,
        }
    }

    // Refuses where the memory has too few words for the zones.
    pub(crate) fn has_room(&self) -> Result<(), BoxFault>
        ensures value { result ≡ granted (first (when (small (state M.Memory self.now)) MemorySmall ∷ [])) }
        ensures room { OnOk result (Roomy self.now.profile (M.Memory.seen self.now.memory).words) }
    {
        if self.memory.size() < self.profile.size() {
            Err(BoxFault::MemorySmall)
        } else {
            Ok(())
        }
    }

    // Refuses where the memory is too small or a slip is out.
    pub(crate) fn ready(&self) -> Result<(), BoxFault>
        ensures value { result ≡ granted (first (when (small (state M.Memory self.now)) MemorySmall ∷ when self.now.out SlipOut ∷ [])) }
        ensures room { OnOk result (Roomy self.now.profile (M.Memory.seen self.now.memory).words) }
    {
        self.has_room()?;
        if self.out {
            Err(BoxFault::SlipOut)
        } else {
            Ok(())
        }
    }
}

impl<M: HeardMemory> KeyBox<M> {
    // The number that the memory tells of the accesses so far. This is no call: it changes nothing.
    pub fn hear(&self) -> u32
        ensures { result ≡ M.HeardMemory.told (M.Memory.seen self.now.memory).trail }
    {
        self.memory.hear()
    }
}
