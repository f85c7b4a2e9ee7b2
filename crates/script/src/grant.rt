// What a line that is granted is told: what a call on the box gives, or the number heard.
// It stands to the box's grant as the line's fault does to the box's.

use keybox::call::Grant;

#[derive(Clone, Copy, Debug, PartialEq, Eq)]
pub enum LineGrant {
    Call(Grant),
    Heard(u32),
}
