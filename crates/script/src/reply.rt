// A printed line as it is put together.
// The longest is a refusal, with three numbers of at most ten digits and the name of a layer: 44 bytes with the line feed.
// It has no model: a type that is copied needs its fields back from its view, and the bytes not used are in no view.

ghost use Rattle.std.specs.Prelude.{◌≡◌, ◌≤◌, [], length};
ghost use Rattle.script.specs.Printing.{said};

use arrayvec::ArrayString;

#[derive(Clone, Copy, Debug, PartialEq, Eq)]
pub struct Reply {
    pub(crate) text: ArrayString<44>,
}

impl Reply {
    pub(crate) fn empty() -> Reply
        ensures { said result ≡ [] }
    {
        Reply {
            text: ArrayString::new(),
        }
    }

    pub fn as_bytes(&self) -> &[u8]
        ensures bytes { result.now ≡ said self.now }
        ensures fits { length result.now ≤ 44 }
    {
        self.text.as_str().as_bytes()
    }
}
