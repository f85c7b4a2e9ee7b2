// A session: the bytes of a script go in, and the reply to each line comes out as soon as the line is complete.
// What all of them together are for a whole input stands on the contract of `new`.
// Contracts see desk and session through `desk_of` and `talk_of` and no model, since the laws over whole scripts are stated of those records.

ghost use Rattle.std.specs.Prelude.{◌≡◌};
ghost use Rattle.std.specs.Option.{option_map};
ghost use Rattle.lines.specs.Feeding.{line_of};
ghost use Rattle.script.specs.Printing.{said, printed};
ghost use Rattle.script.specs.Sessions.{desk_of, works};
ghost use Rattle.script.specs.Talking.{talk_of, begun, fed, finished, TalksAs};

use crate::desk::Desk;
use crate::print::print;
use crate::reply::Reply;
use lines::line::Line;
use lines::splitter::Splitter;
use memory::{HeardMemory, Memory};

#[derive(Drop)]
pub struct Session<M: Memory> {
    splitter: Splitter,
    desk: Desk<M>,
}

impl<M: HeardMemory + Drop> Session<M> {
    pub fn new(memory: M) -> Session<M>
        ensures begun { talk_of M.Memory result ≡ begun (M.Memory.seen memory) }
        ensures talks { TalksAs M.HeardMemory.told (M.Memory.seen memory) }
    {
        Session {
            splitter: Splitter::new(),
            desk: Desk::new(memory),
        }
    }

    // Takes one more byte of the input. Where it completes a line, the reply to that line is answered.
    pub fn feed(&mut self, byte: u8) -> Option<Reply>
        ensures { record { reply = option_map said result; after = talk_of M.Memory self.new } ≡ fed M.HeardMemory.told (talk_of M.Memory self.old) byte }
    {
        let line = self.splitter.push(byte)?;
        Some(self.answer(&line))
    }

    // The input has ended: a last line without a line feed is answered now.
    pub fn finish(&mut self) -> Option<Reply>
        ensures { record { reply = option_map said result; after = talk_of M.Memory self.new } ≡ finished M.HeardMemory.told (talk_of M.Memory self.old) }
    {
        let line = self.splitter.finish()?;
        Some(self.answer(&line))
    }

    fn answer(&mut self, line: &Line) -> Reply
        ensures reply { said result ≡ printed line.now.number (works M.HeardMemory.told (desk_of M.Memory self.old.desk) (line_of line.now)).answer }
        ensures desk { desk_of M.Memory self.new.desk ≡ (works M.HeardMemory.told (desk_of M.Memory self.old.desk) (line_of line.now)).after }
        ensures splitter { self.new.splitter ≡ self.old.splitter }
    {
        print(line.number(), self.desk.work(line))
    }
}
