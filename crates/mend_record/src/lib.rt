// What mending records of a change to a claim.

#![tactic(auto)]

// What a record says was done; as a number, the record's kind.
#[derive(Clone, Copy)]
pub enum Kind {
    Drop = 1,
    Addition = 2,
    Exchange = 3,
}

// A record of a change: the kind, the row that goes out and the row that comes in, 0 where there is none. Its layout is that of C's `struct star_record`.
#[repr(C)]
#[derive(Clone, Copy)]
pub struct Record {
    pub kind: u32,
    pub out: u32,
    pub into: u32,
}
