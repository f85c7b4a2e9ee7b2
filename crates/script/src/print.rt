// The bytes of a printed line, written one part after the other.
// Every part has a bound of its own, which its function asks for, and together they fit, so printing cannot fail.
// `write!` was tried in place of the parts: a clause has the bytes that it wrote if it answers `Ok`, and none has that it does where they fit.

ghost use Rattle.std.specs.Prelude.{◌≡◌, ◌+◌, ◌<◌, ◌≤◌, [], ◌++◌, length, codes, decimal};
ghost use Rattle.scheme.specs.declared.fault.Told.{Told};
ghost use Rattle.script.specs.Printing.{said, spaced, hexadecimal, granted, name, refused, printed};

use crate::fault::LineFault;
use crate::grant::LineGrant;
use crate::reply::Reply;
use itoa::Buffer;
use keybox::call::Grant;
use scheme::fault::{Fault, Layer, Told};

impl Reply {
    // A space and a text.
    fn part(&mut self, text: &str)
        requires { length (said self.old) + 1 + length text.now ≤ 44 }
        ensures { said self.new ≡ said self.old ++ spaced text.now }
    {
        self.text.push_str(" ");
        self.text.push_str(text);
    }

    // A space and the decimal digits of a number.
    fn number(&mut self, n: u32)
        requires { length (said self.old) + 11 ≤ 44 }
        ensures bytes { said self.new ≡ said self.old ++ spaced (decimal n) }
        ensures len { length (said self.new) ≤ length (said self.old) + 11 }
    {
        self.part(Buffer::new().format(n));
    }

    // A space and the eight hexadecimal digits of a word.
    fn word(&mut self, w: u32)
        requires { length (said self.old) + 9 ≤ 44 }
        ensures bytes { said self.new ≡ said self.old ++ spaced (hexadecimal 8 w) }
        ensures len { length (said self.new) ≡ length (said self.old) + 9 }
    {
        self.text.push_str(" ");
        for k in (0..8u32).rev() {
            self.text
                .push(char::from_digit((w >> (4 * k)) % 16, 16).unwrap());
        }
    }

    // A space and the name of a layer.
    fn layer(&mut self, layer: Layer)
        requires { length (said self.old) + 8 ≤ 44 }
        ensures bytes { said self.new ≡ said self.old ++ spaced (name layer) }
        ensures len { length (said self.new) ≤ length (said self.old) + 8 }
    {
        match layer {
            Layer::Profile => self.part("profile"),
            Layer::Input => self.part("input"),
            Layer::Box => self.part("box"),
            Layer::Line => self.part("line"),
        }
    }

    fn grant(&mut self, grant: LineGrant)
        requires { said self.old ≡ [] }
        ensures bytes { said self.new ≡ codes "ok" ++ granted grant }
        ensures len { length (said self.new) < 44 }
    {
        self.text.push_str("ok");
        match grant {
            LineGrant::Call(Grant::Done) => {}
            LineGrant::Call(Grant::Word(w)) => self.word(w),
            LineGrant::Call(Grant::Rotations(n)) | LineGrant::Heard(n) => self.number(n),
        }
    }

    fn refuse(&mut self, told: Told, line: u32)
        requires { said self.old ≡ [] }
        ensures bytes { said self.new ≡ refused told line }
        ensures len { length (said self.new) < 44 }
    {
        self.text.push_str("no");
        self.number(told.number);
        self.layer(told.layer);
        self.number(told.place);
        self.number(line);
    }
}

// What is printed for the line of that number.
pub fn print(line: u32, answer: Result<LineGrant, LineFault>) -> Reply
    ensures { said result ≡ printed line answer }
{
    let mut reply = Reply::empty();
    match answer {
        Ok(grant) => reply.grant(grant),
        Err(fault) => reply.refuse(fault.told(), line),
    }
    reply.text.push_str("\n");
    reply
}
