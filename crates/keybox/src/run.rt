// Calls as values: one call, and a whole run of calls on a box over any memory.
// What holds of every run stands on the contract of `run`: what no trail may show, and what lasts.

ghost use Rattle.std.specs.Prelude.{◌≡◌, ◌+◌, is_ok, IfOk, IfErr, vec_len, vec_capacity, nat_le};
ghost use Rattle.std.specs.VecDeque.{deque_len};
ghost use Rattle.keybox.specs.Model.{next};
ghost use Rattle.keybox.specs.Accesses.{shape};
ghost use Rattle.keybox.specs.Runs.{Hides};
ghost use Rattle.keybox.specs.Lasting.{Lasts};
ghost use Rattle.keybox.specs.Device.{state, Does, Ran};

use crate::call::{Answer, Call, Grant};
use crate::device::KeyBox;
use memory::Memory;
use std::collections::VecDeque;

impl<M: Memory> KeyBox<M> {
    // One case for each call, as the definition that the contract cites has it.
    pub fn call(&mut self, call: Call) -> Answer
        ensures { Does M.Memory self.old self.new (shape call) result (next (state M.Memory self.old) call) }
    {
        match call {
            Call::Give(place, word) => self.give(place, word).map(|()| Grant::Done),
            Call::Take(place) => self.take(place).map(Grant::Word),
            Call::Load => self.load().map(Grant::Rotations),
            Call::Seal => self.seal().map(Grant::Rotations),
            Call::Wipe => self.wipe().map(|()| Grant::Done),
        }
    }

    // Works off a list of calls; their answers are added to `answers`. Where it has no room for them all, both come back, and nothing is done.
    // So no memory has to be found for the answers, and a run fails exactly where its caller brought too little.
    pub fn run(
        &mut self,
        mut calls: VecDeque<Call>,
        mut answers: Vec<Answer>,
    ) -> Result<Vec<Answer>, (VecDeque<Call>, Vec<Answer>)>
        ensures room { is_ok result ≡ nat_le (vec_len answers + deque_len calls) (vec_capacity answers) }
        ensures ran { IfOk result (λ v. Ran M.Memory self.old self.new calls.items answers.items v.items) }
        ensures handed_back { IfErr result (λ back. (back ≡ (calls, answers)) × (self.new ≡ self.old)) }
        ensures hides { Hides (state M.Memory self.old) calls.items }
        ensures lasts { Lasts (state M.Memory self.old) calls.items }
    {
        if answers.capacity() - answers.len() < calls.len() {
            return Err((calls, answers));
        }
        while let Some(call) = calls.pop_front() {
            answers.push_reserved(self.call(call));
        }
        calls.destroy_empty();
        Ok(answers)
    }
}
