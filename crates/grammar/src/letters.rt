//! What a line of the script says.

// The two letters of a script line: the report of the primary, and that of the spare.
// They stay the bytes of the text: what a letter means is decided where a report is made, which has them as literal cases.
#[derive(Clone, Copy, Debug, PartialEq)]
pub struct Letters {
    pub primary: u8,
    pub spare: u8,
}
